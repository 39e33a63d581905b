// Sizes, offsets and limits of what a sheet and an answer hold, by the names of specs/Places. An offset counts from the
// first byte of the record.
#![tactic(auto)]

// ---- limits

// Bytes of a sheet.
pub const SHEET_LIMIT: usize = 65535;

// Columns are below it.
pub const COLUMN_LIMIT: usize = 128;

// Populations, lower frequencies, errors and known row counts are not above it: 2 ^ 53.
pub const COUNT_LIMIT: u64 = 0x20_0000_0000_0000;

// A join's conjuncts, and with them its equalities and coverages.
pub const CONJUNCT_LIMIT: usize = 64;

// Items of one sketch, and of all.
pub const ITEM_LIMIT: usize = 64;

pub const ITEMS_LIMIT: usize = 512;

// Operands of all expressions.
pub const OPERAND_LIMIT: usize = 512;

// Columns of one class: so many at least, and so many at most.
pub const CLASS_LEAST: usize = 2;

pub const CLASS_MOST: usize = 128;

// ---- fields that are alike everywhere

// In front of a section, and of each part of a join's answer.
pub const COUNT_SIZE: usize = 2;

// A column, a table, an expression.
pub const NUMBER_SIZE: usize = 2;

pub const FLOAT_SIZE: usize = 8;

// A column, a table or a sketch that is not there.
pub const NO_NUMBER: u16 = u16::MAX;

// A count of rows or values.
pub const WIDE_SIZE: usize = 8;

// So many rows as nobody knows.
pub const UNKNOWN_COUNT: u64 = u64::MAX;

// ---- an estimate

pub const ESTIMATE_FLAGS_OFFSET: usize = 1;

pub const ESTIMATE_VALUE_OFFSET: usize = ESTIMATE_FLAGS_OFFSET + 1;

pub const ESTIMATE_LOWER_OFFSET: usize = ESTIMATE_VALUE_OFFSET + FLOAT_SIZE;

pub const ESTIMATE_UPPER_OFFSET: usize = ESTIMATE_LOWER_OFFSET + FLOAT_SIZE;

pub const ESTIMATE_SIZE: usize = ESTIMATE_UPPER_OFFSET + FLOAT_SIZE;

// ---- the settings, from the first of them on

pub const LIKE_SELECTIVITY_OFFSET: usize = 0;

pub const DEFAULT_PREDICATE_SELECTIVITY_OFFSET: usize = LIKE_SELECTIVITY_OFFSET + FLOAT_SIZE;

pub const RANGE_FALLBACK_SELECTIVITY_OFFSET: usize = DEFAULT_PREDICATE_SELECTIVITY_OFFSET
    + FLOAT_SIZE;

pub const UNKNOWN_SCAN_ROWS_OFFSET: usize = RANGE_FALLBACK_SELECTIVITY_OFFSET + FLOAT_SIZE;

pub const UNKNOWN_COLUMN_NDV_CAP_OFFSET: usize = UNKNOWN_SCAN_ROWS_OFFSET + FLOAT_SIZE;

// ---- a scalar: its tag, then its value and zeros

pub const SCALAR_VALUE_OFFSET: usize = 1;

pub const SCALAR_VALUE_SIZE: usize = 18;

pub const SCALAR_SIZE: usize = SCALAR_VALUE_OFFSET + SCALAR_VALUE_SIZE;

// ---- a scalar's value by its type; an offset counts from the value's first byte

pub const BOOLEAN_SIZE: usize = 1;

// Also a date, and an interval's months, days and milliseconds.
pub const INT32_SIZE: usize = 4;

// Also an interval's nanoseconds.
pub const INT64_SIZE: usize = 8;

// Behind the precision.
pub const DECIMAL_SCALE_OFFSET: usize = 1;

pub const DECIMAL_DIGITS_OFFSET: usize = DECIMAL_SCALE_OFFSET + 1;

pub const DECIMAL_DIGITS_SIZE: usize = 16;

pub const DECIMAL_SIZE: usize = DECIMAL_DIGITS_OFFSET + DECIMAL_DIGITS_SIZE;

// Behind the months.
pub const MONTH_DAY_NANO_DAYS_OFFSET: usize = INT32_SIZE;

pub const MONTH_DAY_NANO_NANOSECONDS_OFFSET: usize = MONTH_DAY_NANO_DAYS_OFFSET + INT32_SIZE;

pub const MONTH_DAY_NANO_SIZE: usize = MONTH_DAY_NANO_NANOSECONDS_OFFSET + INT64_SIZE;

// Behind the days.
pub const DAY_TIME_MILLISECONDS_OFFSET: usize = INT32_SIZE;

pub const DAY_TIME_SIZE: usize = DAY_TIME_MILLISECONDS_OFFSET + INT32_SIZE;

// ---- a sketch: its head, and an item

pub const SKETCH_COUNT_OFFSET: usize = WIDE_SIZE;

pub const SKETCH_HEAD_SIZE: usize = SKETCH_COUNT_OFFSET + COUNT_SIZE;

pub const ITEM_LOWER_OFFSET: usize = SCALAR_SIZE;

pub const ITEM_ERROR_OFFSET: usize = ITEM_LOWER_OFFSET + WIDE_SIZE;

pub const ITEM_SIZE: usize = ITEM_ERROR_OFFSET + WIDE_SIZE;

// ---- a table

pub const TABLE_ROWS_OFFSET: usize = NUMBER_SIZE;

pub const TABLE_SIZE: usize = TABLE_ROWS_OFFSET + WIDE_SIZE;

// ---- a key

pub const KEY_TABLE_OFFSET: usize = 1;

pub const KEY_COLUMN_OFFSET: usize = KEY_TABLE_OFFSET + NUMBER_SIZE;

pub const KEY_REFERENCED_TABLE_OFFSET: usize = KEY_COLUMN_OFFSET + NUMBER_SIZE;

pub const KEY_REFERENCED_COLUMN_OFFSET: usize = KEY_REFERENCED_TABLE_OFFSET + NUMBER_SIZE;

pub const KEY_SIZE: usize = KEY_REFERENCED_COLUMN_OFFSET + NUMBER_SIZE;

// ---- a column; its base is a table and a column

pub const COLUMN_BASE_OFFSET: usize = NUMBER_SIZE;

pub const BASE_COLUMN_OFFSET: usize = NUMBER_SIZE;

pub const BASE_SIZE: usize = BASE_COLUMN_OFFSET + NUMBER_SIZE;

pub const COLUMN_LOWER_OFFSET: usize = COLUMN_BASE_OFFSET + BASE_SIZE;

pub const COLUMN_UPPER_OFFSET: usize = COLUMN_LOWER_OFFSET + SCALAR_SIZE;

pub const COLUMN_FREQUENCY_OFFSET: usize = COLUMN_UPPER_OFFSET + SCALAR_SIZE;

pub const COLUMN_DISTINCT_OFFSET: usize = COLUMN_FREQUENCY_OFFSET + ESTIMATE_SIZE;

pub const COLUMN_SKETCH_OFFSET: usize = COLUMN_DISTINCT_OFFSET + ESTIMATE_SIZE;

pub const COLUMN_SIZE: usize = COLUMN_SKETCH_OFFSET + NUMBER_SIZE;

// ---- a class: its head, behind which its columns stand

pub const CLASS_COUNT_OFFSET: usize = 0;

pub const CLASS_DISTINCT_OFFSET: usize = CLASS_COUNT_OFFSET + COUNT_SIZE;

pub const CLASS_HEAD_SIZE: usize = CLASS_DISTINCT_OFFSET + ESTIMATE_SIZE;

// ---- an expression

pub const EXPRESSION_OP_OFFSET: usize = 1;

pub const EXPRESSION_FIRST_OFFSET: usize = EXPRESSION_OP_OFFSET + 1;

pub const EXPRESSION_SECOND_OFFSET: usize = EXPRESSION_FIRST_OFFSET + NUMBER_SIZE;

pub const EXPRESSION_SCALAR_OFFSET: usize = EXPRESSION_SECOND_OFFSET + NUMBER_SIZE;

pub const EXPRESSION_SIZE: usize = EXPRESSION_SCALAR_OFFSET + SCALAR_SIZE;

// ---- a coverage in a join's answer

pub const COVERAGE_FIGURES_OFFSET: usize = NUMBER_SIZE;

// The figures' places, from the first of them on.
pub const COVERAGE_NON_NULL_OFFSET: usize = FLOAT_SIZE;

pub const COVERAGE_INTERSECTION_OFFSET: usize = COVERAGE_NON_NULL_OFFSET + FLOAT_SIZE;

pub const COVERAGE_NON_NULL_MATCH_OFFSET: usize = COVERAGE_INTERSECTION_OFFSET + FLOAT_SIZE;

pub const COVERAGE_NULL_MATCH_OFFSET: usize = COVERAGE_NON_NULL_MATCH_OFFSET + FLOAT_SIZE;

pub const COVERAGE_FIGURES_SIZE: usize = COVERAGE_NULL_MATCH_OFFSET + FLOAT_SIZE;

pub const COVERAGE_ORDINARY_OFFSET: usize = COVERAGE_FIGURES_OFFSET + COVERAGE_FIGURES_SIZE;

pub const COVERAGE_SIZE: usize = COVERAGE_ORDINARY_OFFSET + 1;

// ---- the figures in a join's answer

pub const FIGURES_MATCH_OFFSET: usize = ESTIMATE_SIZE;

pub const FIGURES_RESIDUAL_OFFSET: usize = FIGURES_MATCH_OFFSET + ESTIMATE_SIZE;

pub const FIGURES_SIZE: usize = FIGURES_RESIDUAL_OFFSET + FLOAT_SIZE;

// ---- a join's answer: figures, classes, coverages and non-null columns, each part behind its count

pub const JOIN_CLASSES_OFFSET: usize = COUNT_SIZE + FIGURES_SIZE;

pub const FIRST_CLASS_OFFSET: usize = JOIN_CLASSES_OFFSET + COUNT_SIZE;

// The figures and the four counts.
pub const JOIN_FIXED_SIZE: usize = FIRST_CLASS_OFFSET + COUNT_SIZE + COUNT_SIZE;

// Room for the coverages of a join.
pub const COVERAGES_SIZE: usize = COVERAGE_SIZE * CONJUNCT_LIMIT;

// Classes of an answer share no column and have two or more.
pub const CLASSES_LIMIT: usize = COLUMN_LIMIT / CLASS_LEAST;

// The longest answers.
pub const LONGEST_JOIN: usize = JOIN_FIXED_SIZE
    + (CLASS_HEAD_SIZE + NUMBER_SIZE * CLASS_LEAST) * CLASSES_LIMIT
    + COVERAGES_SIZE
    + NUMBER_SIZE * COLUMN_LIMIT;

pub const LONGEST_SPLIT: usize = COUNT_SIZE + NUMBER_SIZE * OPERAND_LIMIT;

pub const LONGEST_PREDICATE: usize = ESTIMATE_SIZE;
