//! The files that commands read, each of a sort, and inputs of several.
ghost use Rattle.std.specs.Prelude.{◌≡◌, ◌⊎◌, MatchResult, string_bytes};
ghost use Rattle.net_plan.specs.Stream.{HasRoom};
ghost use Rattle.command_answers.{specs.Answers.{stream, GavePlan, GaveCertificate, IsPlanUnread, IsCertificateUnread}, specs.Inputs.{GaveBytes, GaveNoBytes, GaveEvents, AreEventsUnread, AreLinesUnread}};
ghost use Rattle.command_answers.specs.declared.refused.Refused.TheVariants as refused;

use crate::command::Reads;
use crate::inputs::{given_certificate, given_events, given_lines, given_plan};
use crate::refused::Refused;
use net_plan::{Source, TEXT_LIMIT, TextFault, read_within};
use plan_values::{Certificate, Event, Plan};
use std::alloc::Global;

/// A plan.
#[derive(Drop)]
pub struct PlanFile<'a, S> {
    pub source: &'a mut S,
}

impl<S: Source> Reads<()> for PlanFile<'_, S> {
    type Given = Plan;

    ghost IsReady = { λ s. HasRoom (S.account s.source.now) };

    ghost Gave = { λ s t first plan. GavePlan (stream S.account s.source.now t.source.now) plan };

    ghost IsUnread = { λ s t first why. IsPlanUnread why (stream S.account s.source.now t.source.now) };

    fn read(&mut self, alloc: Global, _first: &()) -> Result<Plan, Refused> {
        given_plan(alloc, self.source)
    }
}

/// The certificate of a plan.
#[derive(Drop)]
pub struct CertificateFile<'a, S> {
    pub source: &'a mut S,
}

impl<S: Source> Reads<Plan> for CertificateFile<'_, S> {
    type Given = Certificate;

    ghost IsReady = { λ s. HasRoom (S.account s.source.now) };

    ghost Gave = { λ s t plan certificate. GaveCertificate plan (stream S.account s.source.now t.source.now) certificate };

    ghost IsUnread = { λ s t plan why. IsCertificateUnread why plan (stream S.account s.source.now t.source.now) };

    fn read(&mut self, alloc: Global, plan: &Plan) -> Result<Certificate, Refused> {
        given_certificate(alloc, plan, self.source)
    }
}

/// Events at the nodes of a plan that was read with its certificate.
#[derive(Drop)]
pub struct EventFile<'a, S> {
    pub source: &'a mut S,
}

impl<S: Source> Reads<(Plan, Certificate)> for EventFile<'_, S> {
    type Given = Vec<Event>;

    ghost IsReady = { λ s. HasRoom (S.account s.source.now) };

    ghost Gave = { λ s t both events. GaveEvents both.0 (stream S.account s.source.now t.source.now) events.items };

    ghost IsUnread = { λ s t both why. AreEventsUnread why both.0 (stream S.account s.source.now t.source.now) };

    fn read(&mut self, alloc: Global, both: &(Plan, Certificate)) -> Result<Vec<Event>, Refused> {
        given_events(alloc, &both.0, self.source)
    }
}

/// Lines, whatever was read before.
#[derive(Drop)]
pub struct LineFile<'a, S> {
    pub source: &'a mut S,
}

impl<F, S: Source> Reads<F> for LineFile<'_, S> {
    type Given = String;

    ghost IsReady = { λ s. HasRoom (S.account s.source.now) };

    ghost Gave = { λ s t first text. GaveBytes (stream S.account s.source.now t.source.now) (string_bytes text) };

    ghost IsUnread = { λ s t first why. AreLinesUnread why (stream S.account s.source.now t.source.now) };

    fn read(&mut self, alloc: Global, _first: &F) -> Result<String, Refused> {
        given_lines(alloc, self.source)
    }
}

/// Bytes, whatever was read before, or why there are none: for commands that tell this on their output.
#[derive(Drop)]
pub struct ByteFile<'a, S> {
    pub source: &'a mut S,
}

impl<F, S: Source> Reads<F> for ByteFile<'_, S> {
    type Given = Result<Vec<u8>, TextFault>;

    ghost IsReady = { λ s. HasRoom (S.account s.source.now) };

    ghost Gave = { λ s t first read. MatchResult read (λ bytes. GaveBytes (stream S.account s.source.now t.source.now) bytes.items)
        (GaveNoBytes (stream S.account s.source.now t.source.now)) };

    ghost IsUnread = { λ s t first why. why ≡ refused.NoMemory };

    fn read(&mut self, alloc: Global, _first: &F) -> Result<Result<Vec<u8>, TextFault>, Refused> {
        match read_within(alloc, self.source, TEXT_LIMIT) {
            Err(TextFault::OutOfMemory) => Err(Refused::NoMemory),
            read => Ok(read),
        }
    }
}

/// An input, and one that is read for what it gave. Where the first can't be read, the second is left as it was.
#[derive(Drop)]
pub struct Then<A, B> {
    pub first: A,
    pub second: B,
}

impl<F, A: Reads<F>, B: Reads<A::Given>> Reads<F> for Then<A, B> {
    type Given = (A::Given, B::Given);

    ghost IsReady = { λ s. A.IsReady s.first × B.IsReady s.second };

    ghost Gave = { λ s t first given. A.Gave s.first t.first first given.0 × B.Gave s.second t.second given.0 given.1 };

    ghost IsUnread = { λ s t first why. A.IsUnread s.first t.first first why
        ⊎ ((given : A.Given) × A.Gave s.first t.first first given × B.IsUnread s.second t.second given why) };

    ghost IsInOrder = { λ s t first. A.IsInOrder s.first t.first first
        × (((given : A.Given) → ¬ A.Gave s.first t.first first given) → t.second ≡ s.second) };

    fn read(&mut self, alloc: Global, first: &F) -> Result<(A::Given, B::Given), Refused> {
        let given = self.first.read(alloc, first)?;
        let second = self.second.read(alloc, &given)?;
        Ok((given, second))
    }
}

/// An input that is read for nothing, whatever was read before: the second of two plans.
#[derive(Drop)]
pub struct Beside<B> {
    pub input: B,
}

impl<F, B: Reads<()>> Reads<F> for Beside<B> {
    type Given = B::Given;

    ghost IsReady = { λ s. B.IsReady s.input };

    ghost Gave = { λ s t first given. B.Gave s.input t.input tt given };

    ghost IsUnread = { λ s t first why. B.IsUnread s.input t.input tt why };

    ghost IsInOrder = { λ s t first. B.IsInOrder s.input t.input tt };

    fn read(&mut self, alloc: Global, _first: &F) -> Result<B::Given, Refused> {
        self.input.read(alloc, &())
    }
}

/// A plan and its certificate.
pub type Certified<'p, 'c, P, C> = Then<PlanFile<'p, P>, CertificateFile<'c, C>>;

/// Two plans.
pub type Plans<'p, 'q, P, Q> = Then<PlanFile<'p, P>, Beside<PlanFile<'q, Q>>>;

/// A plan and its certificate, by their sources.
pub fn plan_and_certificate<'p, 'c, P, C>(
    plan: &'p mut P,
    certificate: &'c mut C,
) -> Certified<'p, 'c, P, C>
    ensures plan { result.first.source ≡ plan.entry }
    ensures certificate { result.second.source ≡ certificate.entry }
{
    Then {
        first: PlanFile { source: plan },
        second: CertificateFile {
            source: certificate,
        },
    }
}

/// Two plans, by their sources.
pub fn two_plans<'p, 'q, P, Q>(before: &'p mut P, after: &'q mut Q) -> Plans<'p, 'q, P, Q>
    ensures before { result.first.source ≡ before.entry }
    ensures after { result.second.input.source ≡ after.entry }
{
    Then {
        first: PlanFile { source: before },
        second: Beside {
            input: PlanFile { source: after },
        },
    }
}
