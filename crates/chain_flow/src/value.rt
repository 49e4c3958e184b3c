// What is known of a word.
ghost use Rattle.std.specs.Prelude.{◌≡◌, ◌==◌};
ghost use Rattle.chain_flow.specs.Flow.{is_same, same_or_unknown, depth};
ghost use Rattle.chain_flow.specs.Transfer.{plus};

/// A register's value at the start, a number, the stack pointer at the start plus a number, or nothing.
#[derive(Clone, Copy, Debug, PartialEq, Eq, Drop)]
pub enum Value {
    Entry(u8),
    Const(u32),
    Stack(u32),
    Unknown,
}

/// How far below the start an offset is, as a word.
pub fn depth_of(offset: u32) -> u32
    ensures { result ≡ depth offset }
{
    offset.wrapping_neg()
}

impl Value {
    /// Both say the same.
    pub fn says_as(self, other: Value) -> bool
        ensures { result ≡ is_same self other }
    {
        match self {
            Value::Entry(r) => other.is_entry(r),
            Value::Const(c) => other.is_const(c),
            Value::Stack(k) => other.is_stack(k),
            Value::Unknown => other.is_unknown(),
        }
    }

    fn is_entry(self, r: u8) -> bool
        ensures { result ≡ is_same (Value.Entry r) self }
    {
        match self {
            Value::Entry(q) => r == q,
            Value::Const(_) | Value::Stack(_) | Value::Unknown => false,
        }
    }

    fn is_const(self, c: u32) -> bool
        ensures { result ≡ is_same (Value.Const c) self }
    {
        match self {
            Value::Const(d) => c == d,
            Value::Entry(_) | Value::Stack(_) | Value::Unknown => false,
        }
    }

    fn is_stack(self, k: u32) -> bool
        ensures { result ≡ is_same (Value.Stack k) self }
    {
        match self {
            Value::Stack(l) => k == l,
            Value::Entry(_) | Value::Const(_) | Value::Unknown => false,
        }
    }

    fn is_unknown(self) -> bool
        ensures { result ≡ is_same Value.Unknown self }
    {
        match self {
            Value::Unknown => true,
            Value::Entry(_) | Value::Const(_) | Value::Stack(_) => false,
        }
    }

    /// What both say.
    pub fn joined(self, other: Value) -> Value
        ensures { result ≡ same_or_unknown (is_same self other) self }
    {
        if self.says_as(other) {
            self
        } else {
            Value::Unknown
        }
    }

    /// The sum with an immediate.
    pub fn plus(self, imm: u32) -> Value
        ensures { result ≡ plus self imm }
    {
        match self {
            Value::Entry(r) => {
                if imm == 0 {
                    Value::Entry(r)
                } else {
                    Value::Unknown
                }
            }
            Value::Const(c) => Value::Const(c.wrapping_add(imm)),
            Value::Stack(k) => Value::Stack(k.wrapping_add(imm)),
            Value::Unknown => Value::Unknown,
        }
    }
}
