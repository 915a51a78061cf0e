//! Laws of runs of the command line.

ghost use Rattle.commands.specs.Merges.{writers_of};
ghost use Rattle.commands.specs.RunLaws.{
  CheckFileIsTold,
  CheckSchemaIsTold,
  CommandIsRun,
  DeviceIsTold,
  ErrorIsTold,
  NothingIsRun,
  NothingWritten,
  OutputIsTold,
  PlainFileIsTold,
  StatusIsKnown,
};

use files::store::Store;

/// A run does what its arguments request, with the files that the store holds. If they request
/// nothing, it prints the refusal that they have, and does nothing else.
pub fn what_is_asked_for_is_run<'p, S: Store<'p>>()
    ensures run { CommandIsRun (writers_of S.Writer.held S.Writer.has_failed) }
    ensures nothing { NothingIsRun (writers_of S.Writer.held S.Writer.has_failed) }
{}

/// The status of a run is one of the seven, and it is 4 if an output fails. If it is 4, one of
/// these holds: an output has failed, a file that was requested can fail, or a smaller file was
/// requested and a writer of the store has failed. Nothing is printed on the output unless the
/// status is 0, 1 or 4.
pub fn outputs_are_told<'p, S: Store<'p>>()
    ensures status { StatusIsKnown (writers_of S.Writer.held S.Writer.has_failed) }
    ensures unwritten { NothingWritten (writers_of S.Writer.held S.Writer.has_failed) }
    ensures device { DeviceIsTold (writers_of S.Writer.held S.Writer.has_failed) }
    ensures output { OutputIsTold (writers_of S.Writer.held S.Writer.has_failed) }
    ensures error { ErrorIsTold (writers_of S.Writer.held S.Writer.has_failed) }
{}

/// The status of a run reports it if each read of a file fails that has to be read.
pub fn files_are_told<'p, S: Store<'p>>()
    ensures plain { PlainFileIsTold (writers_of S.Writer.held S.Writer.has_failed) }
    ensures schema { CheckSchemaIsTold (writers_of S.Writer.held S.Writer.has_failed) }
    ensures file { CheckFileIsTold (writers_of S.Writer.held S.Writer.has_failed) }
{}
