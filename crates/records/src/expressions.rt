// An expression. It names its children by their numbers, and an n-ary one names its operands by the
// number of the first and how many there are.
ghost use Rattle.std.specs.Prelude.{◌≡◌, ◌<◌, ◌^◌};
ghost use Rattle.records.specs.Expressions.{kind_of, unary_op, binary_op, nary_op, expression_at};

use layout::{
    EXPRESSION_FIRST_OFFSET, EXPRESSION_OP_OFFSET, EXPRESSION_SCALAR_OFFSET,
    EXPRESSION_SECOND_OFFSET,
};
use le::reads::{byte_at, u16_at};
use scalar::Scalar;
use scalar_bytes::reads::scalar_at;

#[derive(Clone, Copy, Debug, PartialEq, Eq)]
pub enum UnaryOp {
    Not,
    IsNull,
    IsNotNull,
    Negate,
}

#[derive(Clone, Copy, Debug, PartialEq, Eq)]
pub enum BinaryOp {
    Eq,
    IsNotDistinctFrom,
    NotEq,
    Lt,
    LtEq,
    Gt,
    GtEq,
    Add,
    Subtract,
    Multiply,
    Divide,
}

#[derive(Clone, Copy, Debug, PartialEq, Eq)]
pub enum NaryOp {
    And,
    Or,
}

#[derive(Clone, Copy)]
pub enum Expression {
    Literal(Scalar),
    ColumnRef(u16),
    Unary { op: UnaryOp, expr: u16 },
    Binary { op: BinaryOp, left: u16, right: u16 },
    Nary { op: NaryOp, first: u16, count: u16 },
    Like,
    Other,
}

// What an expression is, without its fields.
#[derive(Clone, Copy, Debug, PartialEq, Eq)]
pub enum ExpressionKind {
    Literal,
    ColumnRef,
    Unary,
    Binary,
    Nary,
    Like,
    Other,
}

// Kinds and operators by their numbers. A number past the last gives the last.

impl From<u8> for ExpressionKind {
    ghost from_gives = { λ n kind. kind ≡ kind_of n };

    fn from(n: u8) -> ExpressionKind {
        match n {
            0 => ExpressionKind::Literal,
            1 => ExpressionKind::ColumnRef,
            2 => ExpressionKind::Unary,
            3 => ExpressionKind::Binary,
            4 => ExpressionKind::Nary,
            5 => ExpressionKind::Like,
            _ => ExpressionKind::Other,
        }
    }
}

impl From<u8> for UnaryOp {
    ghost from_gives = { λ n op. op ≡ unary_op n };

    fn from(n: u8) -> UnaryOp {
        match n {
            0 => UnaryOp::Not,
            1 => UnaryOp::IsNull,
            2 => UnaryOp::IsNotNull,
            _ => UnaryOp::Negate,
        }
    }
}

impl From<u8> for BinaryOp {
    ghost from_gives = { λ n op. op ≡ binary_op n };

    fn from(n: u8) -> BinaryOp {
        match n {
            0 => BinaryOp::Eq,
            1 => BinaryOp::IsNotDistinctFrom,
            2 => BinaryOp::NotEq,
            3 => BinaryOp::Lt,
            4 => BinaryOp::LtEq,
            5 => BinaryOp::Gt,
            6 => BinaryOp::GtEq,
            7 => BinaryOp::Add,
            8 => BinaryOp::Subtract,
            9 => BinaryOp::Multiply,
            _ => BinaryOp::Divide,
        }
    }
}

impl From<u8> for NaryOp {
    ghost from_gives = { λ n op. op ≡ nary_op n };

    fn from(n: u8) -> NaryOp {
        match n {
            0 => NaryOp::And,
            _ => NaryOp::Or,
        }
    }
}

pub fn expression_at(s: &[u8], at: usize) -> Expression
    requires { at < 2 ^ 60 }
    ensures { result ≡ expression_at s.now at }
{
    match ExpressionKind::from(byte_at(s, at)) {
        ExpressionKind::Literal => Expression::Literal(scalar_at(s, at + EXPRESSION_SCALAR_OFFSET)),
        ExpressionKind::ColumnRef => {
            Expression::ColumnRef(u16_at(s, at + EXPRESSION_FIRST_OFFSET))
        }
        ExpressionKind::Unary => Expression::Unary {
            op: UnaryOp::from(byte_at(s, at + EXPRESSION_OP_OFFSET)),
            expr: u16_at(s, at + EXPRESSION_FIRST_OFFSET),
        },
        ExpressionKind::Binary => Expression::Binary {
            op: BinaryOp::from(byte_at(s, at + EXPRESSION_OP_OFFSET)),
            left: u16_at(s, at + EXPRESSION_FIRST_OFFSET),
            right: u16_at(s, at + EXPRESSION_SECOND_OFFSET),
        },
        ExpressionKind::Nary => Expression::Nary {
            op: NaryOp::from(byte_at(s, at + EXPRESSION_OP_OFFSET)),
            first: u16_at(s, at + EXPRESSION_FIRST_OFFSET),
            count: u16_at(s, at + EXPRESSION_SECOND_OFFSET),
        },
        ExpressionKind::Like => Expression::Like,
        ExpressionKind::Other => Expression::Other,
    }
}
