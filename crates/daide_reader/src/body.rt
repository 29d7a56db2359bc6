//! A message in the body that contains its tokens, read in pieces or at once.

ghost use Rattle.std.specs.Prelude.{◌≡◌, ◌-◌, ◌≤◌, [], ℕ, false, true, length};
ghost use Rattle.daide_token.specs.Token.{tokens_of};
ghost use Rattle.daide_grammar.specs.declared.symbol.Sym.{Sym};
ghost use Rattle.daide_grammar.specs.Words.{Words};
ghost use Rattle.daide_reader.specs.Bounds.{longest_message};
ghost use Rattle.daide_reader.specs.Reading.{HasReadPrefix, tokens_read};
ghost use Rattle.daide_reader.specs.Verdict.{HasVerdict};
ghost use Rattle.daide_reader.specs.ViablePrefix.{IsMessageOf};

use crate::reader::Reader;
use crate::verdict::Verdict;
use daide_grammar::predict::Predict;

impl<T: Predict, const N: usize> Reader<T, N> {
    /// Reads the message of a whole body, after `start`, and ends it: `read` and `finish` in one call. An odd byte at
    /// the end is no token. A body has at most 65,534 bytes.
    ///
    /// `verdict`: the verdict is that of `finish` after the body's tokens.
    pub fn read_body(&mut self, body: &[u8]) -> Verdict
        requires unread { tokens_read self.old ≡ 0 }
        requires unfinished { self.old.finished ≡ false }
        requires room { length body.now ≤ longest_message }
        ensures verdict { (words : Words) (first : Sym) (max_depth : ℕ) →
            HasReadPrefix T.Predict words first max_depth self.old [] →
            HasVerdict (IsMessageOf (T.language words first)) max_depth (tokens_of body.now) result }
        ensures stands_after { (words : Words) (first : Sym) (max_depth : ℕ) →
            HasReadPrefix T.Predict words first max_depth self.old [] →
            HasReadPrefix T.Predict words first max_depth self.new (tokens_of body.now) }
        ensures words { T.words self.new.table ≡ T.words self.old.table }
        ensures depth { self.new.max_depth ≡ self.old.max_depth }
        ensures base { self.new.asked_before ≡ self.old.asked_before }
        ensures finished { self.new.finished ≡ true }
    {
        self.read(body);
        self.finish()
    }
}
