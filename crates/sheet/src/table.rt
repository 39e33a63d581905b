// The table of the sections: for each kind the least and the most of its records, whether runs of expressions
// fill it, how long the records are, and what is carried along from one to the next.
ghost use Rattle.std.specs.Prelude.{◌≡◌, ◌<◌, ◌^◌};
ghost use Rattle.sheet.specs.Table.{fixed, counted, section_of, shape_end};

use crate::order::Kind;
use layout::{
    CLASS_COUNT_OFFSET, CLASS_HEAD_SIZE, COLUMN_SIZE, CONJUNCT_LIMIT, ESTIMATE_SIZE,
    EXPRESSION_SIZE, FLOAT_SIZE, ITEM_SIZE, KEY_SIZE, NUMBER_SIZE, OPERAND_LIMIT,
    SKETCH_COUNT_OFFSET, SKETCH_HEAD_SIZE, TABLE_SIZE,
};
use le::reads::u16_at;

// A record has one size, or a head in which the number of its items stands, and items of one size.
#[derive(Clone, Copy)]
pub enum Shape {
    Fixed(u16),
    Counted { head: u16, count: u16, item: u16 },
}

// What is carried along from record to record: how many items there were, how many operands, whose operand the last
// one was. An enum and no trait: the table gives it with the rest of a section, as a value.
#[derive(Clone, Copy)]
pub enum Tally {
    Nothing,
    Items,
    Runs,
    Owner,
}

// `filled` is the operands' alone: as many as the runs of the expressions hold.
#[derive(Clone, Copy)]
pub struct Section {
    pub least: u16,
    pub most: u16,
    pub filled: bool,
    pub shape: Shape,
    pub tally: Tally,
}

// A section of records of one size, of which nothing is carried along.
fn fixed(least: u16, most: u16, size: u16) -> Section
    ensures { result ≡ fixed least most size }
{
    Section {
        least,
        most,
        filled: false,
        shape: Shape::Fixed(size),
        tally: Tally::Nothing,
    }
}

// A section of records that tell how many items they have.
fn counted(most: u16, head: u16, count: u16, item: u16) -> Section
    ensures { result ≡ counted most head count item }
{
    Section {
        shape: Shape::Counted { head, count, item },
        ..fixed(0, most, 0)
    }
}

pub fn section_of(kind: Kind) -> Section
    ensures { result ≡ section_of kind }
{
    match kind {
        Kind::Rows => fixed(2, 2, ESTIMATE_SIZE as u16),
        Kind::Settings => fixed(5, 5, FLOAT_SIZE as u16),
        Kind::Sketches => Section {
            tally: Tally::Items,
            ..counted(
                16,
                SKETCH_HEAD_SIZE as u16,
                SKETCH_COUNT_OFFSET as u16,
                ITEM_SIZE as u16,
            )
        },
        Kind::Tables => fixed(0, 64, TABLE_SIZE as u16),
        Kind::Keys => fixed(0, 64, KEY_SIZE as u16),
        Kind::Columns => fixed(0, 64, COLUMN_SIZE as u16),
        Kind::Classes => counted(
            32,
            CLASS_HEAD_SIZE as u16,
            CLASS_COUNT_OFFSET as u16,
            NUMBER_SIZE as u16,
        ),
        Kind::Expressions => Section {
            tally: Tally::Runs,
            ..fixed(0, 256, EXPRESSION_SIZE as u16)
        },
        Kind::Operands => Section {
            filled: true,
            tally: Tally::Owner,
            ..fixed(0, OPERAND_LIMIT as u16, NUMBER_SIZE as u16)
        },
        Kind::Conjuncts => fixed(0, CONJUNCT_LIMIT as u16, NUMBER_SIZE as u16),
    }
}

// Where a record ends that stands at a place.
pub fn shape_end(s: &[u8], shape: Shape, at: usize) -> usize
    requires { at < 2 ^ 40 }
    ensures { result ≡ shape_end shape s.now at }
{
    match shape {
        Shape::Fixed(size) => at + usize::from(size),
        Shape::Counted { head, count, item } => {
            let n = usize::from(u16_at(s, at + usize::from(count)));
            at + usize::from(head) + usize::from(item) * n
        }
    }
}
