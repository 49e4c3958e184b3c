// What is known of a handler's registers and of its own stack words at an address.
ghost use Rattle.std.specs.Prelude.{◌≡◌, ◌<◌, OnOk, IfOk};
ghost use Rattle.chain_certify.specs.Flow.{value_of, set_value, found, with_stack_word, words_above, flow_at_start, are_below as are_below_of, flow_below};

use crate::stack_word::StackWord;
use crate::stack_words::{find, forget, keep_above, words_below};
use crate::value::Value;
use std::alloc::{AllocError, Global};
use std::marker::Model;

/// A value for each register, and the stack words.
#[derive(Drop)]
pub struct Flow {
    values: [Value; 32],
    words: Vec<StackWord>,
}

impl Model for Flow {
    ghost use Rattle.chain_certify.specs.Flow.{Flow as FlowState};

    ghost Value = { FlowState };

    ghost view = { λ f. record { values = f.values; words = f.words.items } };
}

// The value of a register.
fn value_in(values: &[Value; 32], r: u8) -> Value
    requires { r < 32 }
    ensures { result ≡ value_of values.now r }
{
    values[usize::from(r)]
}

// Each value says at least as much as the other.
fn are_below(values: &[Value; 32], others: &[Value; 32]) -> bool
    ensures { result ≡ are_below_of values.now others.now }
{
    for i in 0..32 {
        if !values[i].is_below(others[i]) {
            return false;
        }
    }
    true
}

impl Flow {
    /// The values of the registers are their own, and no word was stored.
    #[tactic(auto, unfolding(crate::specs::Flow::flow_at_start, crate::specs::Flow::entries))]
    pub fn at_start(alloc: Global) -> Flow
        ensures { result ≡ flow_at_start }
    {
        Flow {
            values: [
                Value::Const(0),
                Value::Entry(1),
                Value::Stack(0),
                Value::Entry(3),
                Value::Entry(4),
                Value::Entry(5),
                Value::Entry(6),
                Value::Entry(7),
                Value::Entry(8),
                Value::Entry(9),
                Value::Entry(10),
                Value::Entry(11),
                Value::Entry(12),
                Value::Entry(13),
                Value::Entry(14),
                Value::Entry(15),
                Value::Entry(16),
                Value::Entry(17),
                Value::Entry(18),
                Value::Entry(19),
                Value::Entry(20),
                Value::Entry(21),
                Value::Entry(22),
                Value::Entry(23),
                Value::Entry(24),
                Value::Entry(25),
                Value::Entry(26),
                Value::Entry(27),
                Value::Entry(28),
                Value::Entry(29),
                Value::Entry(30),
                Value::Entry(31),
            ],
            words: Vec::new(alloc),
        }
    }

    /// The value of a register.
    pub fn value(&self, r: u8) -> Value
        requires { r < 32 }
        ensures { result ≡ value_of self.now.values r }
    {
        value_in(&self.values, r)
    }

    /// Sets the value of a register. That of register 0 stays.
    pub fn set(&mut self, r: u8, value: Value)
        requires { r < 32 }
        ensures { self.new ≡ record self.old { values = set_value self.old.values r value } }
    {
        if r != 0 {
            self.values[usize::from(r)] = value;
        }
    }

    /// The value of the stack word at an offset.
    pub fn find(&self, offset: u32) -> Option<Value>
        ensures { result ≡ found offset self.now.words }
    {
        find(&self.words, offset)
    }

    /// Forgets the stack words below a stack pointer.
    pub fn keep_above(&mut self, sp: u32)
        ensures { self.new ≡ record self.old { words = words_above sp self.old.words } }
    {
        keep_above(&mut self.words, sp);
    }

    /// Sets the stack word at an offset.
    pub fn put(&mut self, offset: u32, value: Value) -> Result<(), AllocError>
        ensures ok { OnOk result (self.new ≡ record self.old { words = with_stack_word offset value self.old.words }) }
    {
        forget(&mut self.words, offset);
        self.words.insert(0, StackWord { offset, value })?;
        Ok(())
    }

    /// The stack words.
    pub fn words(&self) -> &[StackWord]
        ensures { result.now ≡ self.now.words }
    {
        &self.words
    }

    /// Sets the stack words.
    pub fn set_words(&mut self, words: Vec<StackWord>)
        ensures { self.new ≡ record self.old { words = words.items } }
    {
        self.words = words;
    }

    /// It says at least as much as the other.
    pub fn is_below(&self, other: &Flow) -> bool
        ensures { result ≡ flow_below self.now other.now }
    {
        are_below(&self.values, &other.values) && words_below(&self.words, &other.words)
    }

    /// The same, in memory of its own.
    pub fn copy(&self, alloc: Global) -> Result<Flow, AllocError>
        ensures { IfOk result (λ flow. flow ≡ self.now) }
    {
        Ok(Flow {
            values: self.values,
            words: Vec::from_slice(alloc, &self.words)?,
        })
    }
}
