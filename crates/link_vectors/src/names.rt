// The operations, by their names in the table.
ghost use Rattle.std.specs.Prelude.{◌≡◌};
ghost use Rattle.tables.specs.Rows.{Names_by};
ghost use Rattle.link_vectors.specs.Names.{name_of};

use tables::Named;

// What is done with a link, in one call.
#[derive(Clone, Copy)]
pub enum Call {
    Pull,
    Repull,
    Send,
    Record,
    Poll,
}

// What is read off a link and its last call.
#[derive(Clone, Copy)]
pub enum Reading {
    Rate,
    Phase,
    Sent,
    Handed,
    Heard,
    Lost,
    Power,
}

#[derive(Clone, Copy)]
pub enum Operation {
    Open,
    Hear,
    Call(Call),
    Read(Reading),
}

const ALL: [Operation; 14] = [
    Operation::Open,
    Operation::Hear,
    Operation::Call(Call::Pull),
    Operation::Call(Call::Repull),
    Operation::Call(Call::Send),
    Operation::Call(Call::Record),
    Operation::Call(Call::Poll),
    Operation::Read(Reading::Rate),
    Operation::Read(Reading::Phase),
    Operation::Read(Reading::Sent),
    Operation::Read(Reading::Handed),
    Operation::Read(Reading::Heard),
    Operation::Read(Reading::Lost),
    Operation::Read(Reading::Power),
];

impl Operation {
    fn name(self) -> &'static [u8]
        ensures { result.now ≡ name_of self }
    {
        match self {
            Operation::Open => b"open",
            Operation::Hear => b"hear",
            Operation::Call(Call::Pull) => b"pull",
            Operation::Call(Call::Repull) => b"repull",
            Operation::Call(Call::Send) => b"send",
            Operation::Call(Call::Record) => b"record",
            Operation::Call(Call::Poll) => b"poll",
            Operation::Read(Reading::Rate) => b"rate",
            Operation::Read(Reading::Phase) => b"phase",
            Operation::Read(Reading::Sent) => b"sent",
            Operation::Read(Reading::Handed) => b"handed",
            Operation::Read(Reading::Heard) => b"heard",
            Operation::Read(Reading::Lost) => b"lost",
            Operation::Read(Reading::Power) => b"power",
        }
    }
}

impl Named for Operation {
    ghost names = { Names_by name_of };

    // Not a `match`, of whose byte strings a proof learns the lengths alone.
    // `loader_vectors` has one over its own array, with a proof over its own list.
    fn named(name: &[u8]) -> Option<Operation> {
        ALL.iter()
            .find(|operation| lists::same(operation.name(), name))
            .copied()
    }
}
