//! Where `make` writes what it makes.

/// The paths of the files that `make` writes.
#[derive(Clone, Copy)]
pub struct MakeFiles<'a> {
    /// That of the plan, which is printed where there is none.
    pub plan: Option<&'a str>,
    pub certificate: Option<&'a str>,
}
