// Laws that the definitions meet. Each is the contract of a function that does nothing.
ghost use Rattle.std.specs.Prelude.{◌≡◌, ◌≤◌, ◌<◌, ◌^◌, ℕ, List, [], ◌∷◌, length, true, Some};
ghost use Rattle.std.specs.List.{All};
ghost use Rattle.lab_packets.specs.Digits.{bytes_digits, bytes_of};
ghost use Rattle.lab_packets.specs.Numbers.{word_of};
ghost use Rattle.lab_packets.specs.Frames.{Hearing, Whole, are_data, most_data, framed, messages, unread};
ghost use Rattle.lab_packets.specs.Stream.{Item, AreItemsOf, items_messages};
ghost use Rattle.lab_packets.specs.Answers.{are_unescaped, reply_data, word_digits, words_digits, console_data, stop_data, target_text, text_piece};
ghost use Rattle.lab_packets.specs.declared.reply.Reply.{Reply};
ghost use Rattle.lab_packets.specs.declared.stop.Stop.{Stop};

/// A frame around data is read as that packet, wherever reading stood before it.
pub fn frames_are_read()
    ensures { (h : Hearing) (bytes : List ℕ) → are_data bytes ≡ true → length bytes ≤ most_data → messages h (framed bytes) ≡ Whole bytes ∷ [] }
{}

/// An answer has no byte that would have to be escaped, and so its frame is read as that answer.
pub fn answers_need_no_escape()
    ensures replies { (r : Reply) → are_unescaped (reply_data r) ≡ true }
    ensures bytes { (bytes : List ℕ) → All (λ b. b < 256) bytes → are_unescaped (bytes_digits bytes) ≡ true }
    ensures words { (words : List ℕ) → All (λ w. w < 2 ^ 32) words → are_unescaped (words_digits words) ≡ true }
    ensures console { (bytes : List ℕ) → All (λ b. b < 256) bytes → are_unescaped (console_data bytes) ≡ true }
    ensures stops { (s : Stop) → are_unescaped (stop_data s) ≡ true }
    ensures features { (offset count : ℕ) → are_unescaped (text_piece target_text offset count) ≡ true }
    ensures read { (h : Hearing) (bytes : List ℕ) → are_unescaped bytes ≡ true → length bytes ≤ most_data → messages h (framed bytes) ≡ Whole bytes ∷ [] }
{}

/// All bytes are passed-over bytes, packets that were given up, and frames, one after the other; and what is read of them is
/// what these tell.
pub fn streams_are_read()
    ensures some { (bytes : List ℕ) → (items : List Item) × AreItemsOf bytes items }
    ensures told { (bytes : List ℕ) (items : List Item) → AreItemsOf bytes items → messages unread bytes ≡ items_messages items }
{}

/// Bytes and words that are written as digits are read again.
pub fn digits_are_read()
    ensures bytes { (bytes : List ℕ) → All (λ b. b < 256) bytes → bytes_of (bytes_digits bytes) ≡ Some bytes }
    ensures word { (word : ℕ) → word < 2 ^ 32 → word_of (word_digits word) ≡ Some word }
{}
