// The operators by what a run does with them: each group has one arm in the run, and a number of a group names its operator.
ghost use Rattle.std.specs.Prelude.{◌≡◌};
ghost use Rattle.opcode.specs.Opcode.{op_of};
ghost use Rattle.opcode.specs.Groups.{group_of, change_in, combine_in, is_not_equal, order_in, test_in, many_in};

use crate::{Arithmetic, Bitwise, Change, Combine, Fit, Many, Order, Shift, Test};

#[derive(Drop)]
pub enum Group {
    // 1..5
    Int32,
    Int64,
    Real64,
    Text,
    Name,
    // 6..8
    Change,
    // 16..26
    Combine,
    // 32, 33
    Equality,
    // 34..37
    Order,
    // 40..43
    Not,
    And,
    Xor,
    Or,
    // 44, 45
    SkipIfFalse,
    SkipIfTrue,
    // 48..54
    Test,
    // 56..61
    Many,
    Unknown,
}

// The group of a number. Every visit of a run asks for one. Each number has an arm of its own: the compiler then jumps by the number, where ranges are tested one by one.
pub fn group_of(number: u16) -> Group
    ensures { result ≡ group_of (op_of number) }
{
    match number {
        1 => Group::Int32,
        2 => Group::Int64,
        3 => Group::Real64,
        4 => Group::Text,
        5 => Group::Name,
        6 => Group::Change,
        7 => Group::Change,
        8 => Group::Change,
        16 => Group::Combine,
        17 => Group::Combine,
        18 => Group::Combine,
        19 => Group::Combine,
        20 => Group::Combine,
        21 => Group::Combine,
        22 => Group::Combine,
        23 => Group::Combine,
        24 => Group::Combine,
        25 => Group::Combine,
        26 => Group::Combine,
        32 => Group::Equality,
        33 => Group::Equality,
        34 => Group::Order,
        35 => Group::Order,
        36 => Group::Order,
        37 => Group::Order,
        40 => Group::Not,
        41 => Group::And,
        42 => Group::Xor,
        43 => Group::Or,
        44 => Group::SkipIfFalse,
        45 => Group::SkipIfTrue,
        48 => Group::Test,
        49 => Group::Test,
        50 => Group::Test,
        51 => Group::Test,
        52 => Group::Test,
        53 => Group::Test,
        54 => Group::Test,
        56 => Group::Many,
        57 => Group::Many,
        58 => Group::Many,
        59 => Group::Many,
        60 => Group::Many,
        61 => Group::Many,
        _ => Group::Unknown,
    }
}

// The operator of a number of a group, in each group that has several; of another number the last.
pub fn change_of(number: u16) -> Change
    ensures { result ≡ change_in (op_of number) }
{
    match number {
        6 => Change::FoldCase,
        7 => Change::Size,
        _ => Change::Complement,
    }
}

// `<< >> >>> & ^ | * / % + -`
pub fn combine_of(number: u16) -> Combine
    ensures { result ≡ combine_in (op_of number) }
{
    match number {
        16 => Combine::Shift(Shift::Left),
        17 => Combine::Shift(Shift::Right),
        18 => Combine::Shift(Shift::RightZero),
        19 => Combine::Bitwise(Bitwise::And),
        20 => Combine::Bitwise(Bitwise::Xor),
        21 => Combine::Bitwise(Bitwise::Or),
        22 => Combine::Arithmetic(Arithmetic::Mul),
        23 => Combine::Arithmetic(Arithmetic::Div),
        24 => Combine::Arithmetic(Arithmetic::Rem),
        25 => Combine::Arithmetic(Arithmetic::Add),
        _ => Combine::Arithmetic(Arithmetic::Sub),
    }
}

// Whether a number is that of `!=`.
pub fn is_not_equal(number: u16) -> bool
    ensures { result ≡ is_not_equal (op_of number) }
{
    number == 33
}

// `< <= > >=`
pub fn order_of(number: u16) -> Order
    ensures { result ≡ order_in (op_of number) }
{
    match number {
        34 => Order::Less,
        35 => Order::LessEqual,
        36 => Order::Greater,
        _ => Order::GreaterEqual,
    }
}

// `int32 int64 real64 string opaque nan require`
pub fn test_of(number: u16) -> Test
    ensures { result ≡ test_in (op_of number) }
{
    match number {
        48 => Test::Int32,
        49 => Test::Int64,
        50 => Test::Real64,
        51 => Test::Text,
        52 => Test::Opaque,
        53 => Test::Nan,
        _ => Test::Require,
    }
}

// `begins-with contains ends-with equals wildcard regex`
pub fn many_of(number: u16) -> Many
    ensures { result ≡ many_in (op_of number) }
{
    match number {
        56 => Many::Fit(Fit::BeginsWith),
        57 => Many::Fit(Fit::Contains),
        58 => Many::Fit(Fit::EndsWith),
        59 => Many::Equals,
        60 => Many::Fit(Fit::Wildcard),
        _ => Many::Fit(Fit::Regex),
    }
}
