//! The listener of a control socket, at a path of the file system.
//!
//! The operating system decides what is at the path, so no contract is about it.

use crate::addresses::AddressFault;
use mio::net::{UnixListener, UnixStream};
use std::fs::File;
use std::io::ErrorKind;
use std::net::Net;
use std::os::unix::fs::{FileTypeExt, MetadataExt, PermissionsExt};
use std::path::Path;
use std::rt::Files;
use std::{fs, io};

/// The mode of the socket's file: its user alone may connect.
const OWN_MODE: u32 = 0o600;

/// Files whose folders can be locked, as those of the operating system.
pub trait FolderLock: Files {
    /// What holds a lock until it is dropped.
    type Lock: Drop;

    /// Locks the folder of a path. So of several runs that begin or end at once only one at a time looks at what is at the
    /// path, and changes it.
    fn lock_folder(&self, path: &str) -> io::Result<Self::Lock>;
}

impl<R: Files<File = File>> FolderLock for R {
    type Lock = File;

    fn lock_folder(&self, path: &str) -> io::Result<File> {
        let folder = match Path::new(path).parent() {
            Some(folder) if !folder.as_os_str().is_empty() => File::open(self, folder)?,
            _ => File::open(self, ".")?,
        };
        folder.lock()?;
        Ok(folder)
    }
}

/// Returns true if a socket is at the path on which nobody listens. The connect that tells it does not block.
fn is_stale<R: Files + Net>(rt: &R, path: &str) -> bool {
    let is_socket = match fs::symlink_metadata(rt, path) {
        Ok(found) => found.file_type().is_socket(),
        Err(_) => false,
    };
    is_socket
        && match UnixStream::connect(rt, path) {
            Ok(_) => false,
            Err(error) => error.kind() == ErrorKind::ConnectionRefused,
        }
}

/// Creates a listener at the path. If a socket is there on which nobody listens, it is replaced.
fn listener_at<R: Files + Net>(rt: &R, path: &str) -> io::Result<UnixListener> {
    match UnixListener::bind(rt, path) {
        Err(error) if error.kind() == ErrorKind::AddrInUse && is_stale(rt, path) => {
            fs::remove_file(rt, path)?;
            UnixListener::bind(rt, path)
        }
        bound => bound,
    }
}

/// What tells a file from each other one that is ever at its path.
#[derive(Clone, Copy, PartialEq)]
struct FileIdentity {
    device: u64,
    inode: u64,
    /// When it was made, since the number of a removed file may be given to the next one: in seconds, and nanoseconds.
    seconds: i64,
    nanoseconds: i64,
}

/// Returns the identity of the file at a path; `None` if there is none.
fn identity_at<R: Files>(rt: &R, path: &str) -> Option<FileIdentity> {
    let found = fs::symlink_metadata(rt, path).ok()?;
    Some(FileIdentity {
        device: found.dev(),
        inode: found.ino(),
        seconds: found.mtime(),
        nanoseconds: found.mtime_nsec(),
    })
}

/// The file of a control socket. It is removed when this is dropped, unless another file is at its path by then.
pub struct ControlFile<'a, R: FolderLock> {
    rt: &'a R,
    path: &'a str,
    identity: Option<FileIdentity>,
}

impl<R: FolderLock> Drop for ControlFile<'_, R> {
    fn drop(self) {
        let ControlFile { rt, path, identity } = self;
        let _locked = rt.lock_folder(path);
        if identity.is_some() && identity_at(rt, path) == identity {
            let _ = fs::remove_file(rt, path);
        }
    }
}

impl<'a, R: FolderLock> ControlFile<'a, R> {
    /// Takes over the file at the path, at which a listener was bound.
    pub fn at(rt: &'a R, path: &'a str) -> ControlFile<'a, R> {
        ControlFile {
            rt,
            path,
            identity: identity_at(rt, path),
        }
    }
}

/// Creates the listener of a control socket at this path, to which its user alone may connect. The system creates its
/// file before the mode is set, so until then the mode of the folder decides who may connect.
///
/// Fails with the system's error: with `AddrInUse` if anything is at the path, except a socket on which nobody listens. So of
/// several runs that begin at once with one path, one begins.
pub fn bind_control<R: FolderLock + Net>(rt: &R, path: &str) -> io::Result<UnixListener> {
    let _locked = rt.lock_folder(path)?;
    let listener = listener_at(rt, path)?;
    match fs::set_permissions(rt, path, fs::Permissions::from_mode(OWN_MODE)) {
        Ok(()) => Ok(listener),
        Err(error) => {
            let _ = fs::remove_file(rt, path);
            Err(error)
        }
    }
}

/// Listens once at this path as a run does, and removes the socket.
pub fn try_control<R: FolderLock + Net>(rt: &R, path: &str) -> Result<(), AddressFault> {
    match bind_control(rt, path) {
        Ok(_listener) => {
            let _file = ControlFile::at(rt, path);
            Ok(())
        }
        Err(error) => Err(AddressFault::Refused(error.kind())),
    }
}
