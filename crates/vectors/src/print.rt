//! What is printed of a case, an outcome and a list.
use crate::case::Case;
use crate::code::Code;
use crate::lists;
use crate::lists::Delivered;
use machine::arguments::Arguments;
use std::io;
use std::io::Write;

// The operands that the protocol uses.
fn operands(out: &mut impl Write, case: &Case) -> io::Result<()> {
    let Arguments { input, u, v } = case.operands;
    match case.code {
        Code::Store => write!(out, " w {input}"),
        Code::AddConstant | Code::TimesConstant | Code::Bit => write!(out, " u {u} w {input}"),
        Code::Reshare | Code::Bits | Code::Open => write!(out, " u {u}"),
        _ => write!(out, " u {u} v {v}"),
    }
}

// The outcome's number and shares.
pub(crate) fn outcome(out: &mut impl Write, delivered: &Delivered) -> io::Result<()> {
    let number = delivered.number();
    let shares = delivered.done().shares;
    write!(out, " number {number} shares {shares}")
}

// The protocol, its operands, and the outcome's number and shares.
pub(crate) fn case(out: &mut impl Write, case: &Case, delivered: &Delivered) -> io::Result<()> {
    let code = case.code;
    write!(out, "{code}")?;
    operands(out, case)?;
    outcome(out, delivered)
}

// The words that each party receives, or its whole list.
pub(crate) fn lists(out: &mut impl Write, delivered: &Delivered, whole: bool) -> io::Result<()> {
    for (receiver, list) in &delivered.lists {
        let (verb, words) = if whole {
            ("list", list.len())
        } else {
            ("receives", lists::received_count(list))
        };
        write!(out, "  {receiver} {verb}")?;
        for word in list.iter().take(words) {
            write!(out, " {word}")?;
        }
        writeln!(out)?;
    }
    Ok(())
}
