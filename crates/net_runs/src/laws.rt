//! Laws of the runs of any tables. The functions do nothing: their contracts are the laws.
ghost use Rattle.std.specs.Prelude.{◌≡◌, ◌↔◌, ℕ, List, Some};
ghost use Rattle.mctp_transport.specs.PacketValues.{KeyValue};
ghost use Rattle.pdr_repository.specs.Walks.{Exchange};
ghost use Rattle.plan_values.{specs.declared.plan.Plan.{Plan}, specs.declared.certificate.Certificate.{Certificate}};
ghost use Rattle.net_runs.{specs.Termini.{TerminusState, HoldsBytes}, specs.States.{NetworkState, at_start, unit_of}, specs.Runs.{Turn, Run, RunOf, NoneSwitches}, specs.Events.{EventValue}, specs.Networks.{HasStep}, specs.ByteRuns.{RunsGoOn}, specs.Requests.{RequestsCanBeAnswered}, specs.Walkers.{WalkedState, WalkedEvent}, specs.WalkedMessages.{WalkedRunsAsSent}, specs.WalkedGoing.{CanGoOn, WalkedGoesOn, WalkedRunsGoOn}, specs.NetworkWalks.{AreTakenIn, CanAsk, CanSwitchAndAsk}, specs.Below.{RunsBelow}, specs.WalkedRuns.{WalkedTurn, WalkedRun, WalkedRunOf, NoneSwitchesWalked}, specs.ExactMessages.{IsQuiet, TellsWhatComes, CanBeSent, SixAreTooMany, RunsAsSentBy}};
ghost use Rattle.net_tables.specs.TwoPlans.{Tables, moving};

/// Whatever the event, the network has an outcome and a next state for it, where its termini hold bytes.
#[tactic(auto, using(crate::proofs::Steps::some_step))]
pub fn never_stuck()
    ensures { (tables : Tables) (w : NetworkState) (event : EventValue)
        → ((n : ℕ) (t : TerminusState) → w.terminus n ≡ Some t → HoldsBytes t) → HasStep tables w event }
{}

/// Each run in which bytes are put in goes on, whatever the event.
pub fn runs_go_on()
    ensures { (tables : Tables) (cert : Certificate) → RunsGoOn tables cert }
{}

/// At the start of a run each key is quiet for each destination.
#[tactic(auto, using(crate::proofs::Sends::start_is_quiet))]
pub fn every_key_is_quiet_at_the_start()
    ensures { (plan : Plan) (cert : Certificate) (key : KeyValue) (d : ℕ) → IsQuiet plan (at_start plan cert) key d }
{}

/// Where a message comes at a node with an event, the outcome of that event tells it.
pub fn what_comes_is_told()
    ensures { (tables : Tables) → TellsWhatComes tables }
{}

/// A message of 1 to 4096 bytes can be sent in a tidy run so that it comes.
#[tactic(auto, using(crate::proofs::Sent::can_be_sent))]
pub fn messages_can_be_sent()
    ensures { (plan : Plan) (cert : Certificate) → CanBeSent (unit_of plan) plan cert }
{}

/// Where a message of six packets is sent, another message can come in its place, in a tidy run.
pub fn six_are_too_many()
    ensures { (plan : Plan) (cert : Certificate) → SixAreTooMany (unit_of plan) plan cert }
{}

/// A request of one packet can be sent to a node with a terminus so that it is answered.
pub fn requests_can_be_answered()
    ensures { (plan : Plan) (cert : Certificate) → RequestsCanBeAnswered plan cert }
{}

/// Before any node switches, the runs of a move are those of its first plan.
#[tactic(auto, using(crate::proofs::Unswitched::runs_alike))]
pub fn runs_are_alike_before_any_switch()
    ensures { (before after : Plan) (cert : Certificate) (turns : List Turn) → NoneSwitches turns → Run before cert turns ↔ RunOf (moving before after) cert turns }
{}

/// The exchanges that a walker takes in turns are determined by the turns.
#[tactic(auto, using(crate::proofs::OneTaken::one_taken))]
pub fn walkers_take_one_list()
    ensures { (k : ℕ) (w : WalkedState) (turns : List WalkedTurn) (xs ys : List Exchange) → AreTakenIn k w turns xs → AreTakenIn k w turns ys → xs ≡ ys }
{}

/// Below each run with walkers there is a run of the network to the same network, turn by turn: what happens to the
/// network happens in both, and each request of a walker that is put in is a put of its bytes at the walker's node.
#[tactic(auto, using(crate::proofs::Below::runs_below))]
pub fn runs_below()
    ensures { (tables : Tables) → RunsBelow tables }
{}

/// In every run of any tables, what is told under a key is what was sent, where its packets keep apart.
#[tactic(auto, using(crate::proofs::Exact::sent_by))]
pub fn messages_come_as_sent()
    ensures { (tables : Tables) (key : KeyValue) (d : ℕ) (w : NetworkState) → RunsAsSentBy (unit_of tables.plan) tables key d w }
{}

/// A walk can begin at the start, and its first request can be put in.
pub fn walks_can_begin()
    ensures { (tables : Tables) (cert : Certificate) → CanAsk tables cert }
{}

/// Whatever the event, a network with walkers has an outcome and a next state for it, where its termini hold bytes, its
/// flights have been numbered, and its walkers can ask.
pub fn walks_never_get_stuck()
    ensures { (tables : Tables) (w : WalkedState) (event : WalkedEvent) → CanGoOn tables.plan w → WalkedGoesOn tables w event }
{}

/// Each run with walkers in which bytes are put in goes on, whatever the event.
pub fn walked_runs_go_on()
    ensures { (tables : Tables) (cert : Certificate) → WalkedRunsGoOn tables cert }
{}

/// In a move a node can switch between the two.
pub fn nodes_can_switch_between()
    ensures { (before after : Plan) (cert : Certificate) → CanSwitchAndAsk before after cert }
{}

/// In runs with walkers too, what is told under a key is what was sent, where its packets keep apart.
#[tactic(auto, using(crate::proofs::WalkedExact::walked_runs_as_sent))]
pub fn walked_messages_come_as_sent()
    ensures { (tables : Tables) (key : KeyValue) (d : ℕ) (w : WalkedState) → WalkedRunsAsSent (unit_of tables.plan) tables key d w }
{}

/// Before any node switches, the runs of a move with walkers are those of its first plan.
#[tactic(auto, using(crate::proofs::WalkedUnswitched::walked_runs_alike))]
pub fn walked_runs_are_alike_before_any_switch()
    ensures { (before after : Plan) (cert : Certificate) (turns : List WalkedTurn)
        → NoneSwitchesWalked turns → WalkedRun before cert turns ↔ WalkedRunOf (moving before after) cert turns }
{}
