// Placements: a value type that is always one which the backplane can take.
ghost use Rattle.std.specs.Prelude.{◌≡◌, true};
ghost use Rattle.rules.specs.Placements.{is_placement};

pub(crate) mod make;

// How many words the module has, at which word of the bus they start, and which control word is its own.
#[derive(Clone, Copy)]
pub struct Placement {
    capacity: u32,
    start: u32,
    control: u32,
    ghost granted: { is_placement capacity start control ≡ true },
}
