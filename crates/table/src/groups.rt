// The operators by what the check asks of an entry: it goes by the number, since to decode the operator, as a run does, costs more.
ghost use Rattle.std.specs.Prelude.{◌≡◌};
ghost use Rattle.opcode.specs.Opcode.{op_of};
ghost use Rattle.table.specs.Groups.{group_of};

#[derive(Clone, Copy)]
pub enum Group {
    // 1
    Int32,
    // 2, 3
    Wide,
    // 4
    Text,
    // 5
    Name,
    // from a value to a value
    Change,
    // `!`
    Not,
    // from a value to a truth value
    Test,
    // from two values to a value
    Combine,
    // from two values to a truth value
    Compare,
    // from two truth values to a truth value
    Connect,
    // from a value and 1..8 more to a truth value
    Many,
    Skip,
    Unknown,
}

// The group of an operator's number. Each number has an arm of its own: the compiler then jumps by the number, where ranges are tested one by one.
pub fn group_of(number: u16) -> Group
    ensures { result ≡ group_of (op_of number) }
{
    match number {
        1 => Group::Int32,
        2 => Group::Wide,
        3 => Group::Wide,
        4 => Group::Text,
        5 => Group::Name,
        6 => Group::Change,
        7 => Group::Change,
        8 => Group::Change,
        16 => Group::Combine,
        17 => Group::Combine,
        18 => Group::Combine,
        19 => Group::Combine,
        20 => Group::Combine,
        21 => Group::Combine,
        22 => Group::Combine,
        23 => Group::Combine,
        24 => Group::Combine,
        25 => Group::Combine,
        26 => Group::Combine,
        32 => Group::Compare,
        33 => Group::Compare,
        34 => Group::Compare,
        35 => Group::Compare,
        36 => Group::Compare,
        37 => Group::Compare,
        40 => Group::Not,
        41 => Group::Connect,
        42 => Group::Connect,
        43 => Group::Connect,
        44 => Group::Skip,
        45 => Group::Skip,
        48 => Group::Test,
        49 => Group::Test,
        50 => Group::Test,
        51 => Group::Test,
        52 => Group::Test,
        53 => Group::Test,
        54 => Group::Test,
        56 => Group::Many,
        57 => Group::Many,
        58 => Group::Many,
        59 => Group::Many,
        60 => Group::Many,
        61 => Group::Many,
        _ => Group::Unknown,
    }
}
