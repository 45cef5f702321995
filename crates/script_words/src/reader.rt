// A line's words, one after the other.
ghost use Rattle.std.specs.Prelude.{◌≡◌, [], ◌∷◌, ◌≤◌, length, MatchOption};
ghost use Rattle.script_words.specs.Words.{word_from, part, words_from};

use crate::Bounds;

// A reader of a line's words: the line, and the place at or after which the next word is looked for.
#[derive(Clone, Copy)]
pub struct Reader<'a> {
    pub line: &'a [u8],
    pub at: usize,
    ghost within: { at ≤ length line.now },
}

impl<'a> Reader<'a> {
    // A reader at the front of a line.
    pub fn new(line: &'a [u8]) -> Reader<'a>
        ensures { (result.line ≡ line.entry) × (result.at ≡ 0) }
    {
        Reader { line, at: 0 }
    }

    // The next word, if one is left, and the reader then stands behind it.
    pub fn next(&mut self) -> Option<&'a [u8]>
        ensures word { MatchOption result ((word_from self.old.line.now self.old.at).start ≡ (word_from self.old.line.now self.old.at).end)
            (λ word. word.now ≡ part self.old.line.now (word_from self.old.line.now self.old.at)) }
        ensures words { MatchOption result (words_from self.old.line.now self.old.at ≡ [])
            (λ word. words_from self.old.line.now self.old.at ≡ word.now ∷ words_from self.new.line.now self.new.at) }
        ensures rest { (self.new.line ≡ self.old.line) × (self.new.at ≡ (word_from self.old.line.now self.old.at).end) }
    {
        let Bounds { start, end } = crate::word_from(self.line, self.at);
        self.at = end;
        if start == end {
            return None;
        }
        Some(&self.line[start..end])
    }
}
