// The shape of a controller.
ghost use Rattle.std.specs.Prelude.{◌≡◌, ◌≤◌, ◌↔◌, IsSome};
ghost use Rattle.clic_regs.specs.Shape.{plain_shape, shape_of, IsShape};

use std::marker::Model;

/// How many inputs a controller has, and how many upper bits of their control bytes can be written.
#[derive(Clone, Copy, Debug, PartialEq, Eq, Drop)]
pub struct Shape {
    inputs: u32,
    bits: u32,
}

impl Model for Shape {
    ghost use Rattle.clic_regs.specs.Shape.{ClicShape, IsShape};

    ghost Value = { ClicShape };

    ghost view = { λ s. record { inputs = s.inputs; bits = s.bits } };

    ghost invariant = { λ s. IsShape (record { inputs = s.inputs; bits = s.bits }) };

    ghost inverse = { λ s. record { inputs = s.inputs; bits = s.bits } };
}

impl Shape {
    pub fn new(inputs: u32, bits: u32) -> Shape
        requires least { 24 ≤ inputs }
        requires most { inputs ≤ 1024 }
        requires bits { bits ≤ 8 }
        ensures { result ≡ record { inputs = inputs; bits = bits } }
    {
        Shape { inputs, bits }
    }

    /// The shape of so many inputs and bits, where there is one.
    pub fn of(inputs: u32, bits: u32) -> Option<Shape>
        ensures value { result ≡ shape_of inputs bits }
        ensures exact { IsSome result ↔ IsShape (record { inputs = inputs; bits = bits }) }
    {
        if (24..=1024).contains(&inputs) && bits <= 8 {
            Some(Shape::new(inputs, bits))
        } else {
            None
        }
    }

    /// The shape that is meant where none is named: 64 inputs, and whole control bytes.
    pub fn plain() -> Shape
        ensures { result ≡ plain_shape }
    {
        Shape::new(64, 8)
    }

    #[inline]
    pub fn inputs(&self) -> u32
        ensures value { result ≡ self.now.inputs }
        ensures shape { IsShape self.now }
    {
        self.inputs
    }

    #[inline]
    pub fn bits(&self) -> u32
        ensures value { result ≡ self.now.bits }
        ensures shape { IsShape self.now }
    {
        self.bits
    }
}
