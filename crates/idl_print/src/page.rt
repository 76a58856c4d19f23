//! A page that tokens are put on.
ghost use Rattle.std.specs.Prelude.{◌≡◌, [], ◌∷◌, ◌++◌, None, Some, OnOk};
ghost use Rattle.idl_tokens.specs.declared.kinds.Kind.TheVariants as kinds;
ghost use Rattle.idl_print.specs.Layout.{between, indent_behind, new_line, outdented};
ghost use Rattle.idl_print.specs.Pages.{Puts, PutsOne};

use crate::sorts::Sort;
use idl_tokens::{Bracket, Mark, Word};
use rpc_base::{NoMemory, Octets};
use std::alloc::Global;
use std::mem;
use uuid::Uuid;

/// A text that grows by tokens.
#[derive(Debug, Drop)]
pub struct Page {
    /// The text so far.
    pub text: Octets,
    /// The last token.
    pub last: Option<Sort>,
    /// The spaces that a line begins with.
    pub indent: Octets,
    alloc: Global,
}

impl Page {
    /// The empty page.
    pub fn new(alloc: Global) -> Self
        ensures text { result.text ≡ [] }
        ensures last { result.last ≡ None }
        ensures indent { result.indent ≡ [] }
    {
        Page {
            text: Octets::new(alloc),
            last: None,
            indent: Octets::new(alloc),
            alloc,
        }
    }

    /// # Errors
    ///
    /// `NoMemory` where there is no memory for it.
    pub fn word(&mut self, word: Word) -> Result<(), NoMemory>
        ensures { OnOk result (Puts (kinds.Word word ∷ []) self.old self.new) }
    {
        self.put(Sort::Word(word), word.text())
    }

    /// # Errors
    ///
    /// `NoMemory` where there is no memory for it.
    pub fn name(&mut self, name: &[u8]) -> Result<(), NoMemory>
        ensures { OnOk result (Puts (kinds.Name name.now ∷ []) self.old self.new) }
    {
        self.put(Sort::Name, name)
    }

    /// A number, in decimal.
    ///
    /// # Errors
    ///
    /// `NoMemory` where there is no memory for it.
    pub fn number(&mut self, value: u64) -> Result<(), NoMemory>
        ensures { OnOk result (Puts (kinds.Number (Some value) ∷ []) self.old self.new) }
    {
        let digits = value.to_string(self.alloc)?;
        self.put(Sort::Number, digits.as_bytes())
    }

    /// A string, given without its quotes.
    ///
    /// # Errors
    ///
    /// `NoMemory` where there is no memory for it.
    pub fn text(&mut self, inside: &[u8]) -> Result<(), NoMemory>
        ensures { OnOk result (Puts (kinds.Text inside.now ∷ []) self.old self.new) }
    {
        self.put(Sort::Text, b"\"")?;
        self.text.append(inside)?;
        self.text.push(b'"')
    }

    /// A UUID, in small letters.
    ///
    /// # Errors
    ///
    /// `NoMemory` where there is no memory for it.
    pub fn uuid(&mut self, id: Uuid) -> Result<(), NoMemory>
        ensures { OnOk result (Puts (kinds.Uuid id ∷ []) self.old self.new) }
    {
        let mut buffer = Uuid::encode_buffer();
        let text = id.hyphenated().encode_lower(&mut buffer);
        self.put(Sort::Uuid, text.as_bytes())
    }

    /// # Errors
    ///
    /// `NoMemory` where there is no memory for it.
    pub fn mark(&mut self, mark: Mark) -> Result<(), NoMemory>
        ensures { OnOk result (Puts (kinds.Mark mark ∷ []) self.old self.new) }
    {
        self.put(Sort::Mark(mark), &[mark.octet()])
    }

    /// An opening bracket. Its level isn't printed.
    ///
    /// # Errors
    ///
    /// `NoMemory` where there is no memory for it.
    pub fn open(&mut self, bracket: Bracket) -> Result<(), NoMemory>
        ensures { OnOk result (Puts (kinds.Open bracket 0 ∷ []) self.old self.new) }
    {
        self.put(Sort::Open(bracket), &[bracket.open_octet()])
    }

    /// # Errors
    ///
    /// `NoMemory` where there is no memory for it.
    pub fn shut(&mut self, bracket: Bracket) -> Result<(), NoMemory>
        ensures { OnOk result (Puts (kinds.Shut bracket ∷ []) self.old self.new) }
    {
        self.put(Sort::Shut(bracket), &[bracket.shut_octet()])
    }

    /// The end of the text.
    ///
    /// # Errors
    ///
    /// `NoMemory` where there is no memory for it.
    pub fn end(&mut self) -> Result<(), NoMemory>
        ensures { OnOk result (Puts (kinds.End ∷ []) self.old self.new) }
    {
        self.put(Sort::End, b"")
    }

    /// What is no token. It has no spelling, and ends the text as its end does.
    ///
    /// # Errors
    ///
    /// `NoMemory` where there is no memory for it.
    pub fn bad(&mut self) -> Result<(), NoMemory>
        ensures { OnOk result (Puts (kinds.Bad ∷ []) self.old self.new) }
    {
        self.put(Sort::End, b"")
    }

    /// A token of that spelling, behind what stands before it.
    fn put(&mut self, sort: Sort, spelling: &[u8]) -> Result<(), NoMemory>
        ensures { OnOk result (PutsOne sort spelling.now self.old self.new) }
    {
        if let Some(last) = self.last {
            self.space(last, sort)?;
        }
        self.text.append(spelling)?;
        self.turn(sort)
    }

    /// What stands between the last token and the next one.
    fn space(&mut self, last: Sort, next: Sort) -> Result<(), NoMemory>
        ensures text { OnOk result (self.new.text ≡ self.old.text ++ between self.old.indent (Some last) next) }
        ensures same { OnOk result ((self.new.last ≡ self.old.last) × (self.new.indent ≡ self.old.indent)) }
    {
        if next.is_end() {
            self.text.push(b'\n')
        } else if next.closes_brace() {
            let indent = self.indent.as_slice();
            begin_line(&mut self.text, &indent[..indent.len().saturating_sub(2)])
        } else if last.ends_line(next) {
            begin_line(&mut self.text, self.indent.as_slice())
        } else if last.clings(next) {
            Ok(())
        } else {
            self.text.push(b' ')
        }
    }

    /// The indent and the last token behind a token.
    fn turn(&mut self, sort: Sort) -> Result<(), NoMemory>
        ensures text { OnOk result (self.new.text ≡ self.old.text) }
        ensures last { OnOk result (self.new.last ≡ Some sort) }
        ensures indent { OnOk result (self.new.indent ≡ indent_behind self.old.indent sort) }
    {
        match sort {
            Sort::Open(Bracket::Curly) => self.indent.append(b"  ")?,
            Sort::Shut(Bracket::Curly) => self.outdent(),
            _ => {}
        }
        self.last = Some(sort);
        Ok(())
    }

    /// Lines begin with two spaces less.
    fn outdent(&mut self)
        ensures indent { self.new.indent ≡ outdented self.old.indent }
        ensures same { (self.new.text ≡ self.old.text) × (self.new.last ≡ self.old.last) }
    {
        let mut spaces = mem::replace(&mut self.indent, Octets::new(self.alloc)).into_vec();
        spaces.truncate(spaces.len().saturating_sub(2));
        self.indent = Octets::from_vec(spaces);
    }
}

fn begin_line(text: &mut Octets, indent: &[u8]) -> Result<(), NoMemory>
    ensures { OnOk result (text.new ≡ text.old ++ new_line indent.now) }
{
    text.push(b'\n')?;
    text.append(indent)
}
