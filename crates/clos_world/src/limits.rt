//! The limits of a session.

/// How much a session may make and each top-level form may take.
#[derive(Clone, Copy, Debug, PartialEq, Eq)]
pub struct Limits {
    /// Steps of one top-level form.
    pub steps: u64,
    /// How deep forms nest in evaluation; above 4,000 counts as 4,000.
    pub depth: u64,
    /// Classes made by defclass.
    pub classes: u64,
    /// Generic functions of the program's.
    pub generics: u64,
    /// Methods of the program's made so far, accessors too.
    pub methods: u64,
    /// Method combinations of the program's.
    pub combinations: u64,
    /// Instances made so far.
    pub instances: u64,
    /// Cells of shared slots made so far.
    pub cells: u64,
    pub functions: u64,
    pub globals: u64,
}

impl Default for Limits {
    ghost use Rattle.std.specs.Prelude.{◌≡◌};
    ghost use Rattle.clos_world.specs.Limits.{standard};

    ghost is_default = { λ l. l ≡ standard };

    fn default() -> Limits {
        Limits {
            steps: 1_000_000,
            depth: 1_000,
            classes: 4_096,
            generics: 4_096,
            methods: 65_536,
            combinations: 1_024,
            instances: 1_000_000,
            cells: 65_536,
            functions: 65_536,
            globals: 65_536,
        }
    }
}
