//! The name of a cell, and of the store beside it.
use std::marker::Brand;

/// Names one cell of stamps, and says how the store began that lies beside it. What was made of that
/// cell has such a type for its parameter.
pub trait Room {
    ghost use Rattle.atomic_table.specs.Seated.{TableId};
    ghost use Rattle.gs_event.specs.Histories.{Start};

    ghost table: { TableId };

    ghost start: { Start };
}

impl Room for Brand {
    ghost use Rattle.gs_pass.specs.Rooms.{no_table, no_start};

    ghost table = { no_table };

    ghost start = { no_start };
}
