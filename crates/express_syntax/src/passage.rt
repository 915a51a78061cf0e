//! Passages of a text that are kept as tokens.

ghost use Rattle.std.specs.Prelude.{◌≡◌, ◌≤◌, List, length, slice_range};
ghost use Rattle.express_syntax.specs.Words.{Word};
ghost use Rattle.express_syntax.specs.Runs;
ghost use Rattle.express_syntax.specs.Runs.{words_of_run, words_of_routine, FitsRoutine};
ghost use Rattle.express_syntax.specs.Passages.{Stands, IsRun, WordsBetween, RunOf, RoutineOf};
ghost use Rattle.express_syntax.specs.steps.PassageLemmas.{words_prop, run_prop, routine_prop};

/// Tokens of a text with the layout between them, from the first byte of the first token to the
/// last byte of the last.
#[derive(Clone, Copy)]
pub struct Passage<'a> {
    text: &'a [u8],
    from: usize,
    to: usize,
    pub ghost order: { from ≤ to },
    pub ghost within: { to ≤ length text.now },
    pub ghost words: { WordsBetween text.now from to } by { words_prop text.now from to },
}

/// Tokens with balanced brackets: a part without a tree, or one that is set aside.
#[derive(Clone, Copy)]
pub struct Run<'a> {
    passage: Passage<'a>,
    pub ghost run: { RunOf passage.words.0 } by { run_prop passage.words.0 },
}

/// The tokens after the name of a function or procedure, up to the word that ends it. Functions and
/// procedures inside it nest (ISO 10303-11, 9.5).
#[derive(Clone, Copy)]
pub struct Routine<'a> {
    passage: Passage<'a>,
    pub ghost routine: { RoutineOf passage.words.0 } by { routine_prop passage.words.0 },
}

impl<'a> Passage<'a> {
    /// Returns the passage of `text` between two byte offsets that enclose tokens.
    pub fn between(text: &'a [u8], from: usize, to: usize) -> Passage<'a>
        requires { (ws : List Word) × Stands text.now from ws to }
        ensures words { (ws : List Word) → Stands text.now from ws to → result.words.0 ≡ ws }
        ensures kept { (result.text ≡ text.entry) × (result.from ≡ from) × (result.to ≡ to) }
    {
        Passage { text, from, to }
    }

    /// Returns the tokens and the layout between them, as in the text.
    pub fn text(&self) -> &'a [u8]
        ensures { result.now ≡ slice_range self.now.text.now self.now.from self.now.to }
    {
        let Passage { text, from, to, .. } = *self;
        &text[from..to]
    }

    /// Returns the number of bytes of the text before the passage.
    pub fn place(&self) -> usize
        ensures { result ≡ self.now.from }
    {
        self.from
    }
}

impl<'a> Run<'a> {
    /// Returns the run with the tokens of a passage.
    pub fn of(passage: Passage<'a>) -> Run<'a>
        requires { (r : Runs.Run) × IsRun r × (words_of_run r ≡ passage.words.0) }
        ensures run { (r : Runs.Run) → IsRun r → words_of_run r ≡ passage.entry.words.0
            → result.run.0 ≡ r }
        ensures kept { result.passage ≡ passage.entry }
    {
        Run { passage }
    }

    /// Returns the passage of the run.
    pub fn passage(&self) -> Passage<'a>
        ensures { result ≡ self.now.passage }
    {
        self.passage
    }
}

impl<'a> Routine<'a> {
    /// Returns the routine with the tokens of a passage.
    pub fn of(passage: Passage<'a>) -> Routine<'a>
        requires { (r : Runs.Routine) × FitsRoutine r × (words_of_routine r ≡ passage.words.0) }
        ensures routine { (r : Runs.Routine) → FitsRoutine r
            → words_of_routine r ≡ passage.entry.words.0 → result.routine.0 ≡ r }
        ensures kept { result.passage ≡ passage.entry }
    {
        Routine { passage }
    }

    /// Returns the passage of the routine.
    pub fn passage(&self) -> Passage<'a>
        ensures { result ≡ self.now.passage }
    {
        self.passage
    }
}
