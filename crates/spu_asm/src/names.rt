//! What names stand for that begin a statement, or name a section.

ghost use Rattle.std.specs.Prelude.{◌≡◌, codes, [], ◌∷◌};
ghost use Rattle.spu_asm.specs.Names.{is_one_of, is_skipped, begins_with, directive_named, section_named, mnemonic_named, is_remark};

use crate::syntax::{Directive, Mnemonic, Section, Size};
use spu_decode::row_named;

fn is_data(name: &[u8]) -> bool
    ensures { result ≡ is_one_of name.now (codes ".data" ∷ codes ".bss" ∷ codes ".rodata" ∷ []) }
{
    name == b".data".as_slice() || name == b".bss".as_slice() || name == b".rodata".as_slice()
}

fn is_align(name: &[u8]) -> bool
    ensures { result ≡ is_one_of name.now (codes ".align" ∷ codes ".p2align" ∷ []) }
{
    name == b".align".as_slice() || name == b".p2align".as_slice()
}

fn is_skip(name: &[u8]) -> bool
    ensures { result ≡ is_one_of name.now (codes ".skip" ∷ codes ".space" ∷ []) }
{
    name == b".skip".as_slice() || name == b".space".as_slice()
}

fn is_long(name: &[u8]) -> bool
    ensures { result ≡ is_one_of name.now (codes ".long" ∷ codes ".word" ∷ codes ".int" ∷ codes ".4byte" ∷ []) }
{
    name == b".long".as_slice()
        || name == b".word".as_slice()
        || name == b".int".as_slice()
        || name == b".4byte".as_slice()
}

fn is_quad(name: &[u8]) -> bool
    ensures { result ≡ is_one_of name.now (codes ".quad" ∷ codes ".8byte" ∷ []) }
{
    name == b".quad".as_slice() || name == b".8byte".as_slice()
}

fn is_short(name: &[u8]) -> bool
    ensures { result ≡ is_one_of name.now (codes ".short" ∷ codes ".hword" ∷ codes ".2byte" ∷ []) }
{
    name == b".short".as_slice() || name == b".hword".as_slice() || name == b".2byte".as_slice()
}

fn is_closed_text(name: &[u8]) -> bool
    ensures { result ≡ is_one_of name.now (codes ".asciz" ∷ codes ".string" ∷ []) }
{
    name == b".asciz".as_slice() || name == b".string".as_slice()
}

fn begins_with(start: &[u8], name: &[u8]) -> bool
    ensures { result ≡ begins_with start.now name.now }
{
    name.len() >= start.len() && start == &name[..start.len()]
}

/// The directive of a name.
#[tactic(auto, unfolding(crate::specs::Names::directive_named))]
pub(crate) fn directive_named(name: &[u8]) -> Option<Directive>
    ensures { result ≡ directive_named name.now }
{
    if name == b".text".as_slice() {
        Some(Directive::Choose(Section::Text))
    } else if is_data(name) {
        Some(Directive::Choose(Section::Data))
    } else if name == b".section".as_slice() {
        Some(Directive::ChooseNamed)
    } else if is_align(name) {
        Some(Directive::Align)
    } else if name == b".org".as_slice() {
        Some(Directive::Org)
    } else if is_skip(name) {
        Some(Directive::Skip)
    } else if is_long(name) {
        Some(Directive::Values(Size::Word))
    } else if is_quad(name) {
        Some(Directive::Values(Size::Double))
    } else if name == b".byte".as_slice() {
        Some(Directive::Values(Size::Byte))
    } else if is_short(name) {
        Some(Directive::Values(Size::Half))
    } else if name == b".ascii".as_slice() {
        Some(Directive::Text(false))
    } else if is_closed_text(name) {
        Some(Directive::Text(true))
    } else if is_skipped(name) {
        Some(Directive::Skipped)
    } else {
        None
    }
}

fn is_skipped(name: &[u8]) -> bool
    ensures { result ≡ is_skipped name.now }
{
    is_remark(name) || begins_with(b".cfi_", name)
}

fn is_remark(name: &[u8]) -> bool
    ensures { result ≡ is_remark name.now }
{
    name == b".file".as_slice()
        || name == b".global".as_slice()
        || name == b".globl".as_slice()
        || name == b".type".as_slice()
        || name == b".size".as_slice()
        || name == b".ident".as_slice()
        || name == b".local".as_slice()
        || name == b".extern".as_slice()
        || name == b".weak".as_slice()
        || name == b".loc".as_slice()
}

/// A name as an operation of the processor.
#[tactic(auto, unfolding(crate::specs::Names::mnemonic_named))]
pub(crate) fn mnemonic_named(name: &[u8]) -> Option<Mnemonic>
    ensures { result ≡ mnemonic_named name.now }
{
    if name == b"lr".as_slice() {
        Some(Mnemonic::LoadRegister)
    } else {
        let row = row_named(name)?;
        Some(Mnemonic::Row(row))
    }
}

/// The section of a name.
pub(crate) fn section_named(name: &[u8]) -> Section
    ensures { result ≡ section_named name.now }
{
    if name == b".text".as_slice() || begins_with(b".text.", name) {
        Section::Text
    } else {
        Section::Data
    }
}
