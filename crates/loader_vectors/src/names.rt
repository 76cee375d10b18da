// The operations, by their names in the table.
ghost use Rattle.std.specs.Prelude.{◌≡◌};
ghost use Rattle.tables.specs.Rows.{Names_by};
ghost use Rattle.loader_vectors.specs.Names.{name_of};

use tables::Named;

// What is read off a loader that was fed.
#[derive(Clone, Copy)]
pub enum Reading {
    Answer,
    Closes,
    Errors,
    Line,
}

#[derive(Clone, Copy)]
pub enum Operation {
    Checksum,
    Command,
    Record,
    Size,
    Value,
    Address,
    Merge,
    Pack,
    Frame,
    Unframe,
    Feed(Reading),
    Flash,
    Erased,
    Packet,
    Load,
}

const ALL: [Operation; 18] = [
    Operation::Checksum,
    Operation::Command,
    Operation::Record,
    Operation::Size,
    Operation::Value,
    Operation::Address,
    Operation::Merge,
    Operation::Pack,
    Operation::Frame,
    Operation::Unframe,
    Operation::Feed(Reading::Answer),
    Operation::Feed(Reading::Closes),
    Operation::Feed(Reading::Errors),
    Operation::Feed(Reading::Line),
    Operation::Flash,
    Operation::Erased,
    Operation::Packet,
    Operation::Load,
];

impl Operation {
    fn name(self) -> &'static [u8]
        ensures { result.now ≡ name_of self }
    {
        match self {
            Operation::Checksum => b"checksum",
            Operation::Command => b"command",
            Operation::Record => b"record",
            Operation::Size => b"size",
            Operation::Value => b"value",
            Operation::Address => b"address",
            Operation::Merge => b"merge",
            Operation::Pack => b"pack",
            Operation::Frame => b"frame",
            Operation::Unframe => b"unframe",
            Operation::Feed(Reading::Answer) => b"answer",
            Operation::Feed(Reading::Closes) => b"closes",
            Operation::Feed(Reading::Errors) => b"errors",
            Operation::Feed(Reading::Line) => b"line",
            Operation::Flash => b"flash",
            Operation::Erased => b"erased",
            Operation::Packet => b"packet",
            Operation::Load => b"load",
        }
    }
}

impl Named for Operation {
    ghost names = { Names_by name_of };

    // Not a `match`, of whose byte strings a proof learns the lengths alone.
    // `link_vectors` has one over its own array, with a proof over its own list.
    fn named(name: &[u8]) -> Option<Operation> {
        ALL.iter()
            .find(|operation| lists::same(operation.name(), name))
            .copied()
    }
}
