// What is known of a word.
ghost use Rattle.std.specs.Prelude.{◌≡◌};
ghost use Rattle.chain_certify.specs.Flow.{low as low_of, high as high_of, ranged as range_of, is_below as is_below_of};
ghost use Rattle.chain_certify.specs.Transfer.{wrapped_range as word_of_range, plus as sum_with};

/// A register's value at the start, a number, the stack pointer at the start plus a number, a number from one to
/// another, or nothing.
#[derive(Clone, Copy, Debug, PartialEq, Eq, Drop)]
pub enum Value {
    Entry(u8),
    Const(u32),
    Stack(u32),
    Range(u32, u32),
    Unknown,
}

// How many words there are.
const WORDS: u64 = 0x1_0000_0000;

/// A number from one to another.
pub fn ranged(least: u32, greatest: u32) -> Value
    ensures { result ≡ range_of least greatest }
{
    if least == greatest {
        Value::Const(least)
    } else {
        Value::Range(least, greatest)
    }
}

/// The word of a number from one to another.
pub fn wrapped_range(least: u64, greatest: u64) -> Value
    ensures { result ≡ word_of_range least greatest }
{
    if least <= greatest && greatest < WORDS {
        return ranged(least as u32, greatest as u32);
    }
    if least >= WORDS && (least <= greatest && greatest < 2 * WORDS) {
        return ranged((least - WORDS) as u32, (greatest - WORDS) as u32);
    }
    Value::Unknown
}

impl Value {
    /// The least word that it may be.
    pub fn low(self) -> u32
        ensures { result ≡ low_of self }
    {
        match self {
            Value::Const(c) => c,
            Value::Range(least, _) => least,
            Value::Entry(_) | Value::Stack(_) | Value::Unknown => 0,
        }
    }

    /// The greatest word that it may be.
    pub fn high(self) -> u32
        ensures { result ≡ high_of self }
    {
        match self {
            Value::Const(c) => c,
            Value::Range(_, greatest) => greatest,
            Value::Entry(_) | Value::Stack(_) | Value::Unknown => u32::MAX,
        }
    }

    /// It says at least as much as the other.
    pub fn is_below(self, other: Value) -> bool
        ensures { result ≡ is_below_of self other }
    {
        match self {
            Value::Entry(r) => other.has_entry(r),
            Value::Const(c) => other.has_number(c),
            Value::Stack(k) => other.has_stack(k),
            Value::Range(least, greatest) => other.has_range(least, greatest),
            Value::Unknown => other.has_all(),
        }
    }

    fn has_entry(self, r: u8) -> bool
        ensures { result ≡ is_below_of (Value.Entry r) self }
    {
        match self {
            Value::Entry(q) => r == q,
            Value::Unknown => true,
            Value::Const(_) | Value::Stack(_) | Value::Range(_, _) => false,
        }
    }

    fn has_number(self, c: u32) -> bool
        ensures { result ≡ is_below_of (Value.Const c) self }
    {
        match self {
            Value::Const(d) => c == d,
            Value::Range(least, greatest) => least <= c && c <= greatest,
            Value::Unknown => true,
            Value::Entry(_) | Value::Stack(_) => false,
        }
    }

    fn has_stack(self, k: u32) -> bool
        ensures { result ≡ is_below_of (Value.Stack k) self }
    {
        match self {
            Value::Stack(l) => k == l,
            Value::Unknown => true,
            Value::Entry(_) | Value::Const(_) | Value::Range(_, _) => false,
        }
    }

    fn has_range(self, low: u32, high: u32) -> bool
        ensures { result ≡ is_below_of (Value.Range low high) self }
    {
        match self {
            Value::Range(least, greatest) => least <= low && high <= greatest,
            Value::Unknown => true,
            Value::Entry(_) | Value::Const(_) | Value::Stack(_) => false,
        }
    }

    fn has_all(self) -> bool
        ensures { result ≡ is_below_of Value.Unknown self }
    {
        match self {
            Value::Unknown => true,
            Value::Entry(_) | Value::Const(_) | Value::Stack(_) | Value::Range(_, _) => false,
        }
    }

    /// The sum with an immediate.
    pub fn plus(self, imm: u32) -> Value
        ensures { result ≡ sum_with self imm }
    {
        match self {
            Value::Entry(r) => {
                if imm == 0 {
                    Value::Entry(r)
                } else {
                    Value::Unknown
                }
            }
            Value::Const(c) => Value::Const(c.wrapping_add(imm)),
            Value::Stack(k) => Value::Stack(k.wrapping_add(imm)),
            Value::Range(least, greatest) => wrapped_range(
                u64::from(least) + u64::from(imm),
                u64::from(greatest) + u64::from(imm),
            ),
            Value::Unknown => Value::Unknown,
        }
    }
}
