ghost use Rattle.std.specs.Prelude.{◌≡◌, IfSome, is_some, nat_lt};
ghost use Rattle.codec.specs.Opcodes.{number};
ghost use Rattle.codec.specs.Decoding.{frame_size};

// The first byte of a frame: which of the calls it is. (Beside `Call` and `RawFrame`, since it is known before any field is.)
#[derive(Clone, Copy)]
pub(crate) enum Opcode {
    Making = 0,
    Begin = 1,
    Read = 2,
    Write = 3,
    Commit = 4,
    Cancel = 5,
    Fetch = 6,
    Evict = 7,
    Drop = 8,
    Deliver = 9,
    TakeUp = 10,
    PutDown = 11,
    LetGo = 12,
    Restart = 13,
    Cut = 14,
}

impl Opcode {
    // Each opcode, at the place of its number. (A table, since no cast leads from a number to an enum; that the two agree is proved.)
    const ALL: [Opcode; 15] = [
        Opcode::Making,
        Opcode::Begin,
        Opcode::Read,
        Opcode::Write,
        Opcode::Commit,
        Opcode::Cancel,
        Opcode::Fetch,
        Opcode::Evict,
        Opcode::Drop,
        Opcode::Deliver,
        Opcode::TakeUp,
        Opcode::PutDown,
        Opcode::LetGo,
        Opcode::Restart,
        Opcode::Cut,
    ];

    // The opcode of this number; there are fifteen. (An option and no `TryFrom`, whose error would say nothing and be dropped.)
    pub(crate) fn new(byte: u8) -> Option<Opcode>
        ensures value { IfSome result (λ opcode. number opcode ≡ byte) }
        ensures which { is_some result ≡ nat_lt byte 15 }
    {
        Opcode::ALL.get(byte as usize).copied()
    }

    // How many bytes a frame with this opcode has.
    pub(crate) fn size(self) -> usize
        ensures { result ≡ frame_size (number self) }
    {
        match self {
            Opcode::LetGo | Opcode::Cut => 1,
            Opcode::Begin
            | Opcode::Commit
            | Opcode::Cancel
            | Opcode::TakeUp
            | Opcode::PutDown
            | Opcode::Restart => 2,
            Opcode::Fetch | Opcode::Evict | Opcode::Deliver => 3,
            Opcode::Read | Opcode::Drop => 4,
            Opcode::Making => 5,
            Opcode::Write => 8,
        }
    }
}
