// An expression that a call asks for.
ghost use Rattle.std.specs.Prelude.{◌≤◌, length};
ghost use Rattle.layout.specs.Places.{operand_limit};
ghost use Rattle.sheet.specs.Sheet.{viewed};
ghost use Rattle.split.specs.Conjuncts.{conjuncts};

use sheet::View;

// Of an accepted sheet, by its number.
#[derive(Clone, Copy)]
pub struct Asked<'a> {
    pub sheet: View<'a>,
    pub e: u16,
    ghost conjuncts_fit: { length (conjuncts (viewed sheet) e) ≤ operand_limit },
}
