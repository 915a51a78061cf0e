//! Access to files by path.

ghost use Rattle.std.specs.Prelude.{
  ◌≡◌,
  ℕ,
  List,
  [],
  Option,
  None,
  ◌∷◌,
  Bool,
  false,
  IfSome,
};
ghost use Rattle.files.specs.Stores.{Access, HoldsWritten, Opens, to_keep, to_read, to_write};

use devices::device::{Sink, Source};

/// A place that holds files under their paths. Its readers and writers are owned values, so several
/// files can be open at once.
pub trait Store<'p> {
    // the content of the file at a path, if the store reveals it
    ghost contents: { Self → List ℕ → Option (List ℕ) } = { λ _ _. None };

    // whether each read of the file at a path fails (`true`) or none does (`false`), if the store
    // reveals it
    ghost fails: { Self → List ℕ → Option Bool } = { λ _ _. None };

    // the accesses so far, in order, if the store reveals them
    ghost opened: { Self → Option (List Access) } = { λ _. None };

    /// A file that is read.
    type Reader: Source + Drop;

    /// A file that is written.
    type Writer: Sink;

    /// Returns a reader of the file at `path`. The file is opened at the first read, which fails if
    /// it can't be opened.
    fn reader(&mut self, path: &'p str) -> Self::Reader
        ensures fresh { Self.Reader.has_failed result ≡ false }
        ensures contents { Self.Reader.to_come result ≡ contents self.old path.now }
        ensures fails { Self.Reader.fails result ≡ fails self.old path.now }
        ensures opened { Opens (opened self.old) (opened self.new) (to_read path.now ∷ []) }
        // Opening a file changes no file, nor what the store reveals of one.
        ensures kept { (other : List ℕ) → contents self.new other ≡ contents self.old other }
        ensures same { (other : List ℕ) → fails self.new other ≡ fails self.old other };

    /// Returns a writer of the file at `path`. The file is created at the first write, which fails
    /// if it can't be created.
    fn writer(&mut self, path: &'p str) -> Self::Writer
        ensures fresh { Self.Writer.has_failed result ≡ false }
        ensures empty { IfSome (Self.Writer.held result) (λ bytes. bytes ≡ []) }
        ensures opened { Opens (opened self.old) (opened self.new) (to_write path.now ∷ []) }
        // No file changes before the first write. The new content is known only when `keep` takes
        // the writer back.
        ensures kept { (other : List ℕ) → contents self.new other ≡ contents self.old other }
        ensures same { (other : List ℕ) → fails self.new other ≡ fails self.old other };

    /// Takes back a writer that `writer` returned for `path`. The file then holds what was written,
    /// or its former content if nothing was written.
    fn keep(&mut self, path: &'p str, writer: Self::Writer)
        ensures written { HoldsWritten (Self.Writer.held writer) (contents self.old path.now)
            (contents self.new path.now) }
        ensures opened { Opens (opened self.old) (opened self.new) (to_keep path.now ∷ []) }
        ensures kept { (other : List ℕ) → (other ≡ path.now → ⊥)
            → contents self.new other ≡ contents self.old other };
}
