// Laws that the definitions meet. Each is the contract of a function that does nothing.
ghost use Rattle.std.specs.Prelude.{◌≡◌, ◌↔◌, ℕ, List, Ok};
ghost use Rattle.std.specs.List.{All};
ghost use Rattle.hart_memory.specs.Image.{ImageView, AreSound};
ghost use Rattle.mem_text.specs.Items.{IsMemoryText};
ghost use Rattle.mem_text.specs.Reading.{read_text};
ghost use Rattle.mem_text.specs.Writing.{memory_text, IsBytes};

/// Reading a text gives an image exactly where it is a memory text of it.
pub fn memory_texts_are_read()
    ensures { (bytes : List ℕ) (entry : ℕ) (i : ImageView) → (read_text entry bytes ≡ Ok i) ↔ IsMemoryText bytes entry i }
{}

/// A text is one image's at most.
pub fn texts_have_one_image()
    ensures { (bytes : List ℕ) (entry : ℕ) (i j : ImageView) → IsMemoryText bytes entry i → IsMemoryText bytes entry j → i ≡ j }
{}

/// What is written for an image is a memory text of it.
pub fn images_are_written()
    ensures { (i : ImageView) → AreSound i.segments → All IsBytes i.segments → IsMemoryText (memory_text i) i.start i }
{}
