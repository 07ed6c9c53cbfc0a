//! What this crate promises of the protocols as a whole: each claim is the contract of a function that does nothing,
//! and is proved wherever this crate is. The statements are in specs/Claims.antt, specs/Apart.antt, specs/Worked.antt.
ghost use Rattle.std.specs.Prelude.{◌≡◌, ℕ, ◌<◌, cond, List};
ghost use Rattle.protocols.specs.declared.place.Party.{Party};
ghost use Rattle.protocols.specs.declared.place.Party.TheVariants.{Provider};
ghost use Rattle.protocols.specs.declared.place.Place.{Place};
ghost use Rattle.protocols.specs.declared.shares.Shares.{Shares};
ghost use Rattle.protocols.specs.Word.{bit_at};
ghost use Rattle.protocols.specs.Shares.{Operands, at};
ghost use Rattle.protocols.specs.Place.{Tapes, Lists};
ghost use Rattle.protocols.specs.Protocol.{Protocol};
ghost use Rattle.protocols.specs.Blind.{Observer};
ghost use Rattle.protocols.specs.Claims.{RingCombines, BitsCombine, Rows, RowsAt32, BlindProtocols, WordForms};
ghost use Rattle.protocols.specs.Claims.{SourceIs, DrawIs, OnTapes, Delivers, Transcripts};
ghost use Rattle.protocols.specs.Parties.{Process, PlayedApart};
ghost use Rattle.protocols.specs.Own.{share, pair, input};
ghost use Rattle.protocols.specs.Apart.{ProtocolsApart, ByItself, SameProtocolView, MixedProtocolRuns, NoMagic};
ghost use Rattle.protocols.specs.Apart.{mixed_shares, mixed_operands};
ghost use Rattle.protocols.specs.Worked.{Worked};

/// Whatever is drawn, the new shares of every ring protocol add up to the right word.
pub fn ring_combines()
    ensures { (m : ℕ) → 0 < m → RingCombines m }
{}

/// Whatever is drawn, the new shares of Bit, Bits, Equal and Below have the right value.
pub fn bits_combine()
    ensures { (n : ℕ) → BitsCombine n }
{}

/// Every protocol draws and delivers as many words as its row says, and what it makes from words are words.
pub fn rows()
    ensures { (n : ℕ) → Rows n }
{}

/// The rows that depend on the width, as numbers at 32 bits.
pub fn rows_at_32()
    ensures { RowsAt32 }
{}

/// No protocol shows a miner, the controller, or a miner that is the controller too, more of its operands than it may
/// know.
pub fn blind_protocols()
    ensures { (n : ℕ) (o : Observer) → BlindProtocols n o }
{}

/// The code's rounds on whole words are the rounds position by position.
pub fn word_forms()
    ensures { (n k : ℕ) → k < n → WordForms n k }
{}

/// In carry round k a position takes from the highest position below it that has bit k clear and the same higher bits.
pub fn source_is()
    ensures { (k j : ℕ) → bit_at j k ≡ 1 → SourceIs k j }
{}

/// A draw answers 0, the words and the moved place, or 12 and the place as it was if too few words are left.
pub fn draw_is()
    ensures { (k : ℕ) (i : Party) (l : List ℕ) (p : Place) → DrawIs k i l p }
{}

/// A protocol answers `spent` exactly if a tape has too few words left, for protocols on an input, on one value and on
/// two.
pub fn on_tapes()
    ensures of_input { (f : Protocol ℕ Shares) (s : ℕ) (p : Place) (t : Tapes) → OnTapes f s p t }
    ensures of_shares { (f : Protocol Shares Shares) (s : Shares) (p : Place) (t : Tapes) → OnTapes f s p t }
    ensures of_operands { (f : Protocol Operands Shares) (s : Operands) (p : Place) (t : Tapes) → OnTapes f s p t }
{}

/// A protocol's words are delivered whole, or nothing is written.
pub fn delivers()
    ensures { (p : Place) (l : Lists) (s : Shares) (w : Lists) (q : Place) → Delivers p l s w q }
{}

/// The words that each party receives, in order.
pub fn transcripts()
    ensures { (m : ℕ) → Transcripts m }
{}

/// Every protocol is played by a provider and three miners, each on what it alone has.
pub fn protocols_apart()
    ensures { (n : ℕ) → ProtocolsApart n }
{}

/// What four connected programs do is determined by what each does by itself, on its received words: for programs that
/// end with a word, and with a table.
pub fn by_itself()
    ensures of_words { (r : ℕ) (p : Party → Process r ℕ) → ByItself ℕ r p }
    ensures of_tables { (r : ℕ) (p : Party → Process r (List ℕ)) → ByItself (List ℕ) r p }
{}

/// After a protocol that is played apart, what a miner has is determined by what it had, drew and received, for
/// protocols on an input, on one value and on two.
pub fn same_protocol_view()
    ensures of_input { (f : Protocol ℕ Shares) → PlayedApart f input share → SameProtocolView f (λ i v v'. Unit {0}) }
    ensures of_shares { (f : Protocol Shares Shares) → PlayedApart f share share
        → SameProtocolView f (λ i s s'. at i s ≡ at i s') }
    ensures of_operands { (f : Protocol Operands Shares) → PlayedApart f pair share
        → SameProtocolView f (λ i x x'. (at i x.u ≡ at i x'.u) × (at i x.v ≡ at i x'.v)) }
{}

/// If a protocol is played apart and two runs of it deliver the same words, so does each run mixed from the two, for
/// protocols on an input, on one value and on two.
pub fn mixed_protocol_runs()
    ensures of_input { (f : Protocol ℕ Shares) → PlayedApart f input share
        → MixedProtocolRuns f (λ first v v'. cond (first Provider) v v') }
    ensures of_shares { (f : Protocol Shares Shares) → PlayedApart f share share → MixedProtocolRuns f mixed_shares }
    ensures of_operands { (f : Protocol Operands Shares) → PlayedApart f pair share
        → MixedProtocolRuns f mixed_operands }
{}

/// A protocol by which a miner has another's share, with no word sent, is not played apart.
pub fn no_magic()
    ensures { NoMagic }
{}

/// The worked cases of Specification: Worked computations.
pub fn worked()
    ensures { Worked }
{}
