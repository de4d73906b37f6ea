//! Where a command writes. A file gets its name only once it is complete.
//!
//! A file OUT is written under a name of its own beside it, `.OUT.hunkravy-` and 16 random hexadecimal digits. It is
//! created there, synced, and linked to the name OUT, which fails if a file has that name by then; with `--force` it
//! is renamed instead. Then the folder is synced. So OUT is the complete file, or as it was before. No file of
//! another program is opened, removed or replaced. Exceptions: OUT with `--force`; and on a file system without hard
//! links, where the file is renamed after a look, an OUT that another program creates between the two. If OUT is a
//! link, all this happens beside the file that it leads to. A device or a pipe is written directly.
//!
//! No output that the program opens has one of the three standard descriptors, which are free if the caller has closed
//! them: a message would be written into it. `try_clone` takes the lowest descriptor after those.

use crate::command::{Place, Transfer};
use crate::failure::Failure;
use crate::key;
use crate::key::KeyFile;
use crate::shown::Name;
use std::fs::{File, Metadata, OpenOptions};
use std::io::{ErrorKind, IsTerminal};
use std::os::unix::fs::{FileTypeExt, MetadataExt, OpenOptionsExt};
use std::path::Path;
use std::random::RandomSource;
use std::{fs, io};

// The mode of new files: only the owner can read and write them.
const OWNER_ONLY: u32 = 0o600;

// The number of the error of a link where the file system has none. Its kind is also that of a denied permission.
const EPERM: i32 = 1;

// The bit of a mode that a name of a descriptor in `/proc` has if it may be written.
const OWNER_WRITES: u32 = 0o200;

/// What all names of a file share.
#[derive(Clone, Copy, PartialEq, Eq)]
pub enum Identity {
    /// The device that it is on, and its number there.
    File { device: u64, number: u64 },
    /// The number of the device, which several nodes may have.
    BlockDevice(u64),
}

impl Identity {
    fn new(found: &Metadata) -> Self {
        if found.file_type().is_block_device() {
            return Identity::BlockDevice(found.rdev());
        }
        Identity::File {
            device: found.dev(),
            number: found.ino(),
        }
    }

    /// Returns the identity of what was found. Exceptions: a terminal or another character device, and a socket, since
    /// bytes written to these are not read from them again.
    pub fn of(found: &Metadata) -> Option<Self> {
        if found.file_type().is_char_device() || found.file_type().is_socket() {
            None
        } else {
            Some(Identity::new(found))
        }
    }

    // The identity of the file of this name, if there is one.
    fn at(rt: &HostRuntime, name: &str) -> io::Result<Option<Self>> {
        match fs::metadata(rt, name) {
            Ok(found) => Ok(Identity::of(&found)),
            Err(error) if error.kind() == ErrorKind::NotFound => Ok(None),
            Err(error) => Err(error),
        }
    }

    /// Returns the identity of standard input. It is an error if it has no name: it is closed, or there is no `/proc`.
    pub fn of_standard_input(rt: &HostRuntime) -> io::Result<Option<Self>> {
        Ok(Identity::of(&fs::metadata(rt, STANDARD_INPUT)?))
    }
}

/// The name of standard input.
pub const STANDARD_INPUT: &str = "/proc/self/fd/0";

const STANDARD_OUTPUT: &str = "/proc/self/fd/1";

const STANDARD_ERROR: &str = "/proc/self/fd/2";

// The name of an output.
fn name_of(output: Place<'_>) -> &str {
    match output {
        Place::File(name) => name,
        _ => STANDARD_OUTPUT,
    }
}

// The identity of an input.
fn identity_of(rt: &HostRuntime, input: Place<'_>) -> io::Result<Option<Identity>> {
    match input {
        Place::File(name) => Identity::at(rt, name),
        _ => Identity::of_standard_input(rt),
    }
}

// Whether this is the pipe of standard input: only this run could read what is written there.
fn is_own_pipe(rt: &HostRuntime, name: &str) -> bool {
    match (fs::metadata(rt, name), fs::metadata(rt, STANDARD_INPUT)) {
        (Ok(found), Ok(own)) => own.file_type().is_fifo()
            && Identity::new(&found) == Identity::new(&own),
        _ => false,
    }
}

/// Returns an error if the output is the input, one of the key files, a copy of one, or the pipe of standard input,
/// under any of their names.
pub fn refuse_inputs<'a>(
    rt: &HostRuntime,
    paths: Transfer<'a>,
    keys: &[&KeyFile<'a>],
) -> Result<(), Failure<'a>> {
    refuse_inputs_at(rt, paths, keys, name_of(paths.output))
}

// The same for a name: that of the output, or of the file that it was found to lead to.
fn refuse_inputs_at<'a>(
    rt: &HostRuntime,
    paths: Transfer<'a>,
    keys: &[&KeyFile<'a>],
    name: &str,
) -> Result<(), Failure<'a>> {
    let (input, output) = (paths.input, paths.output);
    let unwritable = |error| Failure::Output(output.output_name(), error);
    let written = Identity::at(rt, name).map_err(unwritable)?;
    if written.is_none() {
        return Ok(());
    }
    for key in keys {
        if key.identity(rt)? == written || key.is_in(rt, name).map_err(unwritable)? {
            return Err(Failure::OverKey(output.output_name(), key.name));
        }
    }
    let read = identity_of(rt, input).map_err(|error| Failure::Input(input.input_name(), error))?;
    if read == written {
        return Err(Failure::SameFile(output.output_name()));
    }
    if is_own_pipe(rt, name) {
        return Err(Failure::OwnPipe(output.output_name()));
    }
    Ok(())
}

/// Returns an error if the input is the key file, under any of their names: a pipe has nothing left after the key.
pub fn refuse_key<'a>(
    rt: &HostRuntime,
    input: Place<'a>,
    key: &KeyFile<'a>,
) -> Result<(), Failure<'a>> {
    match (identity_of(rt, input), key.identity(rt)) {
        (Ok(Some(read)), Ok(Some(own))) if read == own => Err(Failure::KeyAsInput(
            input.input_name(),
            key.name,
        )),
        _ => Ok(()),
    }
}

/// Returns whether the output is a terminal or any other character device.
pub fn is_terminal(rt: &HostRuntime, output: Place<'_>) -> bool {
    match output {
        Place::File(name) => match fs::metadata(rt, name) {
            Ok(found) => found.file_type().is_char_device(),
            Err(_) => false,
        },
        _ => rt.stdout().is_terminal(),
    }
}

/// Returns an error if standard error leads to what is read: a message would be written there.
pub fn refuse_errors<'a>(rt: &HostRuntime, input: Place<'a>) -> Result<(), Failure<'a>> {
    match (Identity::at(rt, STANDARD_ERROR), identity_of(rt, input)) {
        (Ok(written), Ok(read)) if written.is_some() && written == read => Err(Failure::Unsaid),
        _ => Ok(()),
    }
}

/// Returns the paths as they are when the run begins: with whether the output is new. It is an error if a message would
/// be written into the key file or the input.
pub fn at_the_start<'a>(
    rt: &HostRuntime,
    paths: Transfer<'a>,
) -> Result<Transfer<'a>, Failure<'a>> {
    refuse_errors(rt, key::place_of(paths.key))?;
    refuse_errors(rt, paths.input)?;
    let is_new = matches!(
        fs::metadata(rt, name_of(paths.output)),
        Err(error) if error.kind() == ErrorKind::NotFound
    );
    Ok(Transfer { is_new, ..paths })
}

/// Returns an error if the output is new and names a device or a pipe, which is then the input by its descriptor.
pub fn refuse_own_descriptor<'a>(rt: &HostRuntime, paths: Transfer<'a>) -> Result<(), Failure<'a>> {
    match fs::metadata(rt, name_of(paths.output)) {
        Ok(found) if paths.is_new && !found.is_file() => Err(Failure::Exchanged(
            paths.output.output_name(),
        )),
        _ => Ok(()),
    }
}

/// Returns an error if nothing names the output and standard output is a terminal.
pub fn refuse_terminal<'a>(rt: &HostRuntime, output: Place<'a>) -> Result<(), Failure<'a>> {
    match output {
        Place::Default if rt.stdout().is_terminal() => Err(Failure::Terminal),
        _ => Ok(()),
    }
}

/// An output file that is open.
#[derive(Drop)]
pub enum Target<'a> {
    /// A device or a pipe.
    Direct(File),
    Part(Part<'a>),
}

// What stands at the name of an output, or where that leads to.
#[derive(Clone, Copy)]
enum Found {
    Nothing,
    File(Identity),
    // A device or a pipe, or a socket, which cannot be opened.
    Stream,
}

// Whether this names a descriptor that may only be read, as `<(COMMAND)` of a shell does.
fn is_only_read(rt: &HostRuntime, name: &str) -> bool {
    match fs::symlink_metadata(rt, name) {
        Ok(entry) => entry.is_symlink() && entry.mode() & OWNER_WRITES == 0,
        Err(_) => false,
    }
}

// Whether standard output or standard error leads to this file: it may be open to append, and OUT would replace it.
fn is_redirected_to(rt: &HostRuntime, found: Found) -> bool {
    let Found::File(identity) = found else {
        return false;
    };
    let is_it = |name| matches!(Identity::at(rt, name), Ok(Some(own)) if own == identity);
    is_it(STANDARD_OUTPUT) || is_it(STANDARD_ERROR)
}

// Whether a name can be that of a new file.
fn names_a_file(name: &str) -> bool {
    !name.is_empty() && !name.ends_with('/')
}

// Looks at an output. It is an error if it is a folder or a block device, or a pipe that only this run reads.
fn find<'a>(rt: &HostRuntime, name: &'a str) -> Result<Found, Failure<'a>> {
    let found = match fs::metadata(rt, name) {
        Ok(found) => found,
        Err(error) if error.kind() == ErrorKind::NotFound && names_a_file(name) => {
            return Ok(Found::Nothing);
        }
        Err(error) => return Err(Failure::Output(Name(name), error)),
    };
    // A block device keeps what is written, as a file does.
    if found.is_dir() || found.file_type().is_block_device() {
        return Err(Failure::NoOutput(Name(name)));
    }
    if found.file_type().is_fifo() && (is_own_pipe(rt, name) || is_only_read(rt, name)) {
        return Err(Failure::OwnPipe(Name(name)));
    }
    if found.is_file() {
        Ok(Found::File(Identity::new(&found)))
    } else {
        Ok(Found::Stream)
    }
}

// The name of the file that an output's name leads to. A link of `/proc` may lead to a file that has none here.
fn target_of<'a>(rt: &HostRuntime, name: &'a str, found: Found) -> Result<String, Failure<'a>> {
    let failed = |error| Failure::Output(Name(name), error);
    match fs::symlink_metadata(rt, name) {
        Ok(entry) if entry.is_symlink() => (),
        Err(error) if error.kind() != ErrorKind::NotFound => return Err(failed(error)),
        _ => return Ok(String::from_str(rt.alloc(), name)?),
    }
    let Found::File(identity) = found else {
        return Err(Failure::DanglingLink(Name(name)));
    };
    let target = match fs::canonicalize(rt, name) {
        Ok(target) => target.into_string(),
        Err(error) if error.kind() == ErrorKind::NotFound => return Err(Failure::NoNameHere(Name(
            name,
        ))),
        Err(error) => return Err(failed(error)),
    };
    if Identity::at(rt, target.as_str()).map_err(failed)? == Some(identity) {
        Ok(target)
    } else {
        Err(Failure::NoNameHere(Name(name)))
    }
}

// Opens a device or a pipe. It is an error if a file has taken its place.
fn open_stream<'a>(rt: &HostRuntime, name: &'a str) -> Result<File, Failure<'a>> {
    let failed = |error| Failure::Output(Name(name), error);
    let opened = OpenOptions::new()
        .write(true)
        .open(rt, name)
        .map_err(failed)?;
    let file = opened.try_clone().map_err(failed)?;
    if file.metadata().map_err(failed)?.is_file() {
        return Err(Failure::Exchanged(Name(name)));
    }
    Ok(file)
}

/// Opens an output file. It is an error if it exists, unless it may be replaced.
pub fn open_target<'a>(
    rt: &HostRuntime,
    name: &'a str,
    replace: bool,
    quiet: bool,
) -> Result<Target<'a>, Failure<'a>> {
    match find(rt, name)? {
        Found::Stream => Ok(Target::Direct(open_stream(rt, name)?)),
        found => {
            if is_redirected_to(rt, found) {
                return Err(Failure::Redirected(Name(name)));
            }
            let target = target_of(rt, name, found)?;
            if matches!(found, Found::File(_)) && !replace {
                return Err(Failure::Exists(Name(name)));
            }
            Ok(Target::Part(Part::new(rt, Name(name), target, replace, quiet)?))
        }
    }
}

// The name of the folder that a file is in.
fn folder(file: &str) -> &str {
    match Path::new(file).parent() {
        Some(folder) if !folder.as_str().is_empty() => folder.as_str(),
        _ => ".",
    }
}

// The most bytes that a part's name has of the name of its file: with what is added it is a name in any file system.
const MOST_OF_NAME: usize = 200;

// A name for the part of a file, beside it.
fn name_of_part<'a>(rt: &HostRuntime, target: &str) -> Result<String, Failure<'a>> {
    let mut drawn = [0; 8];
    if let Err(error) = rt.fill_bytes(&mut drawn) {
        return Err(Failure::Random(error));
    }
    let digits = hex::encode(rt.alloc(), drawn.as_slice())?;
    let name = Path::new(target).file_name().unwrap_or("");
    let beginning = &name[..name.floor_char_boundary(MOST_OF_NAME)];
    let folder = folder(target);
    Ok(format!(in rt.alloc(); "{folder}/.{beginning}.hunkravy-{digits}")?)
}

// Syncs a folder, if its file system can do that.
fn sync_folder(rt: &HostRuntime, folder: &str) -> io::Result<()> {
    match File::open(rt, folder)?.sync_all() {
        Err(error)
            if !matches!(
                error.kind(),
                ErrorKind::InvalidInput | ErrorKind::Unsupported
            ) => { Err(error) }
        _ => Ok(()),
    }
}

// Whether an error of a link means that the file system has no hard links. Another error, such as a full disk, may be
// that of only one of two runs. A new file has one name, so a file system that returns EMLINK allows no second one.
fn means_no_links(error: &io::Error) -> bool {
    error.raw_os_error() == Some(EPERM)
        || matches!(
            error.kind(),
            ErrorKind::Unsupported | ErrorKind::TooManyLinks
        )
}

/// A file that is being written, and has not yet the name of its output.
#[derive(Drop)]
pub struct Part<'a> {
    pub file: File,
    name: String,
    target: String,
    output: Name<'a>,
    /// Whether a file of the output's name is replaced.
    replace: bool,
    quiet: bool,
}

impl<'a> Part<'a> {
    // Creates the part of the file `target`, to which the name `output` leads.
    fn new(
        rt: &HostRuntime,
        output: Name<'a>,
        target: String,
        replace: bool,
        quiet: bool,
    ) -> Result<Self, Failure<'a>> {
        let name = name_of_part(rt, target.as_str())?;
        let created = OpenOptions::new()
            .write(true)
            .create_new(true)
            .mode(OWNER_ONLY)
            .open(rt, name.as_str());
        let mut part = match created {
            Ok(file) => Part {
                file,
                name,
                target,
                output,
                replace,
                quiet,
            },
            Err(error) => return Err(Failure::Output(output, error)),
        };
        match part.file.try_clone() {
            Ok(file) => {
                part.file = file;
                Ok(part)
            }
            Err(error) => {
                part.remove(rt);
                Err(Failure::Output(output, error))
            }
        }
    }

    /// Returns an error as the function `refuse_inputs` does, but for the file to be replaced: the output may be a link
    /// that was changed after the first look.
    pub fn refuse_inputs(
        &self,
        rt: &HostRuntime,
        paths: Transfer<'a>,
        keys: &[&KeyFile<'a>],
    ) -> Result<(), Failure<'a>> {
        refuse_inputs_at(rt, paths, keys, self.target.as_str())
    }

    // Whether this is a name of the file.
    fn is_at(&self, rt: &HostRuntime, name: &str) -> io::Result<bool> {
        let written = Identity::of(&self.file.metadata()?);
        match fs::symlink_metadata(rt, name) {
            Ok(there) => Ok(Identity::of(&there) == written),
            Err(error) if error.kind() == ErrorKind::NotFound => Ok(false),
            Err(error) => Err(error),
        }
    }

    fn say_it_stays(&self, rt: &HostRuntime) {
        let _ = eprintln!(rt;
            "hunkravy: {} was not removed: delete it if it is there, since it may hold plaintext or a key",
            Name(self.name.as_str())
        );
    }

    // Whether the file has no more than so many names now.
    fn has_at_most(&self, names: u64) -> bool {
        matches!(self.file.metadata(), Ok(found) if found.nlink() <= names)
    }

    // Removes the name that the file was created under, or says that it stays. Returns whether it is gone, and the file
    // has no more than so many other names. If its folder was renamed just now, it is found by no name.
    fn unlink(&self, rt: &HostRuntime, others: u64) -> bool {
        let is_gone = match fs::remove_file(rt, self.name.as_str()) {
            Ok(()) => true,
            Err(error) => error.kind() == ErrorKind::NotFound && self.has_at_most(others),
        };
        if !is_gone {
            self.say_it_stays(rt);
        }
        is_gone
    }

    // Removes the file, if it still has the name that it was created under, or says that it stays, if it has any name.
    fn remove(&self, rt: &HostRuntime) {
        match self.is_at(rt, self.name.as_str()) {
            Ok(true) => {
                self.unlink(rt, 0);
            }
            Ok(false) if self.has_at_most(0) => {}
            _ => self.say_it_stays(rt),
        }
    }

    fn failed(&self, error: io::Error) -> Failure<'a> {
        match error.kind() {
            ErrorKind::AlreadyExists if !self.replace => Failure::Exists(self.output),
            _ => Failure::Output(self.output, error),
        }
    }

    // Gives the file the name of the output too, if no file has it. Returns whether it has two names then. A network's
    // file system may give a name and return an error.
    fn link(&self, rt: &HostRuntime) -> Result<bool, Failure<'a>> {
        let Err(error) = fs::hard_link(rt, self.name.as_str(), self.target.as_str()) else {
            return Ok(true);
        };
        match self.is_at(rt, self.target.as_str()) {
            Ok(true) => Ok(true),
            Ok(false) if means_no_links(&error) => {
                self.rename_unless_there(rt)?;
                self.say_renamed(rt, &error);
                Ok(false)
            }
            Ok(false) => Err(self.failed(error)),
            Err(_) => Err(Failure::Unseen(self.output, error)),
        }
    }

    // Renames the file to the output, if no file of that name is found.
    fn rename_unless_there(&self, rt: &HostRuntime) -> Result<(), Failure<'a>> {
        match fs::symlink_metadata(rt, self.target.as_str()) {
            Ok(_) => Err(Failure::Exists(self.output)),
            Err(error) if error.kind() == ErrorKind::NotFound => self.rename(rt),
            Err(error) => Err(self.failed(error)),
        }
    }

    // Renames the file to the output, and replaces a file of that name. It may have the name also after an error.
    fn rename(&self, rt: &HostRuntime) -> Result<(), Failure<'a>> {
        let Err(error) = fs::rename(rt, self.name.as_str(), self.target.as_str()) else {
            return Ok(());
        };
        match self.is_at(rt, self.target.as_str()) {
            Ok(true) => Ok(()),
            Ok(false) => Err(self.failed(error)),
            Err(_) => Err(Failure::Unseen(self.output, error)),
        }
    }

    // Says that a file of the output's name that was created at just that moment is replaced.
    fn say_renamed(&self, rt: &HostRuntime, error: &io::Error) {
        if !self.quiet {
            let _ = eprintln!(rt;
                "hunkravy: {} was renamed into place, since linking failed: {error}",
                self.output
            );
        }
    }

    // Syncs the file, and gives it the name of the output. Returns whether it has two names then.
    fn place(&self, rt: &HostRuntime) -> Result<bool, Failure<'a>> {
        if let Err(error) = self.file.sync_all() {
            return Err(self.failed(error));
        }
        match self.is_at(rt, self.name.as_str()) {
            Ok(true) => (),
            Ok(false) => return Err(Failure::Moved(self.output)),
            Err(error) => return Err(self.failed(error)),
        }
        if self.replace {
            self.rename(rt)?;
            Ok(false)
        } else {
            self.link(rt)
        }
    }

    // Removes the name that the file was created under, if it has two, and syncs the folder also if that fails.
    fn settle(&self, rt: &HostRuntime, has_two_names: bool) -> Result<(), Failure<'a>> {
        let has_one_name = !has_two_names || self.unlink(rt, 1);
        match sync_folder(rt, folder(self.target.as_str())) {
            Ok(()) if has_one_name => Ok(()),
            Ok(()) => Err(Failure::SecondName(self.output)),
            Err(error) => Err(Failure::Unsynced(self.output, error)),
        }
    }

    /// Gives the file the name of its output if all of it was written, and otherwise removes it.
    pub fn end(
        self,
        rt: &HostRuntime,
        written: Result<(), Failure<'a>>,
    ) -> Result<(), Failure<'a>> {
        let placed = match written {
            Ok(()) => self.place(rt),
            Err(failure) => Err(failure),
        };
        match placed {
            Ok(has_two_names) => self.settle(rt, has_two_names),
            Err(failure) => {
                self.remove(rt);
                Err(failure)
            }
        }
    }
}
