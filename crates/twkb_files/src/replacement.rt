//! A new file that takes the place of another, or is removed.
ghost use Rattle.std.specs.Prelude.{◌≡◌, ◌≢◌, IsOk, OnErr, OnOk};

use std::io;

/// How far a new file has come.
#[derive(Clone, Copy, PartialEq, Eq, Debug)]
pub enum Stage {
    /// All that was converted was written to it; the system may still hold it back.
    Written,
    /// The system has it on its device.
    Synchronised,
    /// It has the name of the file that it replaces.
    InPlace,
    /// It was removed, as far as the system allowed that.
    Removed,
}

/// A new file that may take the place of another.
pub trait Replacement {
    ghost use Rattle.twkb_files.specs.declared.replacement.Stage.{Stage};

    ghost stage: { Self → Stage };

    /// Has the system write the file to its device. An `Err` is that of the system.
    fn synchronise(&mut self) -> io::Result<()>
        requires { stage self.old ≡ Stage.Written }
        ensures ok { OnOk result (stage self.new ≡ Stage.Synchronised) }
        ensures err { OnErr result (stage self.new ≡ Stage.Written) };

    /// Gives the file the name of the one that it replaces, in one step. An `Err` is that of the
    /// system.
    fn put_in_place(&mut self) -> io::Result<()>
        requires { stage self.old ≡ Stage.Synchronised }
        ensures ok { OnOk result (stage self.new ≡ Stage.InPlace) }
        ensures err { OnErr result (stage self.new ≡ Stage.Synchronised) };

    /// Removes the file. A failure is not reported.
    fn remove(&mut self)
        ensures { stage self.new ≡ Stage.Removed };
}

// Synchronises a file that was written, and puts it in place if that succeeded.
fn put_synchronised<F: Replacement>(file: &mut F) -> io::Result<()>
    requires { F.stage file.old ≡ Stage.Written }
    ensures { OnOk result (F.stage file.new ≡ Stage.InPlace) }
{
    file.synchronise()?;
    file.put_in_place()
}

/// Ends a new file after a run with this exit status: it is put in place after status 0 alone, once
/// it is synchronised, and removed otherwise. An `Err` is that of the system, which could not
/// synchronise it or put it in place; then it is removed. Takes no memory itself.
pub fn settle<F: Replacement>(file: &mut F, status: u8) -> io::Result<()>
    requires { F.stage file.old ≡ Stage.Written }
    ensures in_place { status ≡ 0 → OnOk result (F.stage file.new ≡ Stage.InPlace) }
    ensures failed { OnErr result (F.stage file.new ≡ Stage.Removed) }
    ensures refused { status ≢ 0 → IsOk result × (F.stage file.new ≡ Stage.Removed) }
{
    if status != 0 {
        file.remove();
        return Ok(());
    }
    let placed = put_synchronised(file);
    if placed.is_err() {
        file.remove();
    }
    placed
}
