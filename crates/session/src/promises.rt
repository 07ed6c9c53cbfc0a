//! The claims of every session. Each is the contract of a function that does nothing, so that it is proved with this
//! crate. Its statement is in specs, below the comment that names the function.
ghost use Rattle.std.specs.Prelude.{ℕ, ◌≡◌, ◌<◌, ◌^◌, List, length};
ghost use Rattle.protocols.specs.declared.place.Drawn.{Drawn};
ghost use Rattle.protocols.specs.Contents.{AllBelow};
ghost use Rattle.machine.specs.declared.code.Command.{Command};
ghost use Rattle.machine.specs.declared.lent.Sizes.{Sizes};
ghost use Rattle.session.specs.Session.{State};
ghost use Rattle.session.specs.Claims.{IsTaken, SessionRefusals, SessionAgreement, SessionBlindness, Decimal};
ghost use Rattle.session.specs.Apart.{SessionApart};
ghost use Rattle.session.specs.Worked.{WorkedSession};
ghost use Rattle.session.specs.WorkedBlindness.{WorkedBlindness};
ghost use Rattle.session.specs.Pool.{PoolReads};

/// A session is refused as a whole exactly as the table of refusals says; otherwise its commands are run up to the
/// first refusal; Specification: Sessions.
pub fn session_refusals()
    ensures { (file w : List ℕ) (s : State) → SessionRefusals file w s }
{}

/// For every file of bytes that is taken, the shares combine to the words of the register machine, and the opened words
/// printed are its opened words; Specification: Opened words.
pub fn session_agreement()
    ensures { (file w : List ℕ) (s : State) → AllBelow 256 file → IsTaken file w s → SessionAgreement file w s }
{}

/// For any commands and any two input lists of one length, no miner's record shows which of the two was used, nor does
/// the controller's if both give the same opened words; Specification: Blindness.
pub fn session_blindness()
    ensures { (cs : List Command) (s : State) (d : Drawn) (x y : List ℕ)
        → length x ≡ length y → AllBelow (2 ^ 32) x → AllBelow (2 ^ 32) y → SessionBlindness cs s d x y }
{}

/// Numbers are printed in decimal: the digits spell the number, without leading zeros; Specification: Lines.
pub fn decimal()
    ensures { (n : ℕ) → n < 2 ^ 64 → Decimal n }
{}

/// For any commands, lengths and kinds, four programs, one for the provider and each miner, leave what every session of
/// these leaves; Specification: Parties apart.
pub fn session_apart()
    ensures { (cs : List Command) (z : Sizes) (k : List ℕ) → SessionApart cs z k }
{}

/// The worked session's commands in lists of words alone: no miner can tell the inputs from others, and the controller
/// cannot tell them from others with the same product.
pub fn worked_blindness()
    ensures { (s : State) → WorkedBlindness s }
{}

/// The worked session, one that stops, an empty one and a file of no word, as numbers: answers, texts and every list.
pub fn worked_session()
    ensures { WorkedSession }
{}

/// A file of at most 30,768 bytes is a session and its text; a longer one is `refused 3`. Specification: Program.
pub fn pool_reads()
    ensures { (file w : List ℕ) (s : State) → PoolReads file w s }
{}
