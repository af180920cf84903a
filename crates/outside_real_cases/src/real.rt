//! The devices on real files.
use outside_api::{Disk, DiskFault};
use outside_real::{FolderDisk, FolderRefusal, LockedFolder, ReadRefusal, read_file};
use std::os::unix::fs::symlink;
use std::{env, fs, io, process};

/// The disk of a real folder.
pub type RealDisk = FolderDisk<LockedFolder<HostRuntime>>;

/// The path of a folder for one test, which is not there yet.
pub fn fresh_path(rt: &HostRuntime, test: &str) -> io::Result<String> {
    let folder = env::temp_dir(rt)?;
    let id = process::id(rt.process());
    let path = format!(in rt.alloc(); "{}/outside_real_{id}_{test}", folder.display())?;
    Ok(path)
}

/// The disk of a folder that is made where there is none.
pub fn made(rt: &HostRuntime, path: &str) -> Option<RealDisk> {
    let folder = LockedFolder::make(rt.clone().ok()?, rt.alloc(), path).ok()?;
    Some(FolderDisk::new(rt.alloc(), folder))
}

/// The disk of a folder that is there.
pub fn opened(rt: &HostRuntime, path: &str) -> Option<RealDisk> {
    let folder = LockedFolder::open(rt.clone().ok()?, rt.alloc(), path).ok()?;
    Some(FolderDisk::new(rt.alloc(), folder))
}

/// What a value is that may go to another thread.
fn sent<T: Send + Drop + 'static>(value: T) -> T {
    value
}

/// Writes two files, and overwrites, truncates and syncs one.
fn write_two<D: Disk>(disk: &mut D) -> Result<(), DiskFault> {
    disk.write_at(0, 0, b"abcdef")?;
    disk.write_at(0, 2, b"XY")?;
    disk.write_at(18_446_744_073_709_551_615, 0, b"z")?;
    disk.sync(0)?;
    disk.cut(0, 5)?;
    disk.sync(0)?;
    disk.sync(18_446_744_073_709_551_615)
}

/// The sizes of the two files and of one that isn't there, and the middle of the first.
fn look_at(disk: &mut RealDisk) -> Result<([u64; 3], [u8; 3]), DiskFault> {
    let mut middle = [0; 3];
    disk.read(0, 1, &mut middle)?;
    disk.read(7, 0, &mut [])?;
    disk.sync(7)?;
    disk.cut(7, 0)?;
    let sizes = [
        disk.size(0)?,
        disk.size(18_446_744_073_709_551_615)?,
        disk.size(7)?,
    ];
    Ok((sizes, middle))
}

#[test]
fn written_bytes_are_found_again(rt: HostRuntime) {
    let path = fresh_path(&rt, "found").expect(&rt, "a folder");
    let mut disk = sent(made(&rt, path.as_str()).expect(&rt, "no disk"));
    write_two(&mut disk).expect(&rt, "a disk");
    assert_eq!(rt;
        look_at(&mut disk).expect(&rt, "a disk"),
        ([5, 1, 0], *b"bXY")
    );
    assert_eq!(rt; disk.faults(), 0);
    drop(disk);
    let mut disk = opened(&rt, path.as_str()).expect(&rt, "no disk");
    assert_eq!(rt;
        look_at(&mut disk).expect(&rt, "a disk"),
        ([5, 1, 0], *b"bXY")
    );
    let whole = format!(in rt.alloc(); "{path}/f0").expect(&rt, "memory");
    let bytes = read_file(&rt, rt.alloc(), whole.as_str(), 5).expect(&rt, "a file");
    assert_eq!(rt; bytes.as_slice(), b"abXYe".as_slice());
    let last = format!(in rt.alloc(); "{path}/f18446744073709551615").expect(&rt, "memory");
    assert!(rt; fs::exists(&rt, last.as_str()).expect(&rt, "a file"));
    let absent = format!(in rt.alloc(); "{path}/f7").expect(&rt, "memory");
    assert!(rt; !fs::exists(&rt, absent.as_str()).expect(&rt, "a file"));
    fs::remove_dir_all(&rt, path.as_str()).expect(&rt, "a file");
}

#[test]
fn faults_are_counted(rt: HostRuntime) {
    let path = fresh_path(&rt, "faults").expect(&rt, "a folder");
    let mut disk = made(&rt, path.as_str()).expect(&rt, "no disk");
    let folder = format!(in rt.alloc(); "{path}/f1").expect(&rt, "memory");
    fs::create_dir(&rt, folder.as_str()).expect(&rt, "a file");
    let full = format!(in rt.alloc(); "{path}/f2").expect(&rt, "memory");
    symlink(&rt, "/dev/full", full.as_str()).expect(&rt, "a file");
    let mut buf = [0; 2];
    disk.write_at(0, 0, b"a").expect(&rt, "a disk");
    assert!(rt; disk.read(0, 0, &mut buf).is_err(), "a read past the end");
    assert!(rt;
        disk.read(3, 0, &mut buf).is_err(),
        "a read of a file that isn't there"
    );
    assert!(rt;
        disk.write_at(0, 1 << 63, b"").is_err(),
        "a write that is too far"
    );
    assert!(rt;
        disk.write_at(0, (1 << 63) - 1, b"a").is_err(),
        "a write that ends too far"
    );
    assert!(rt;
        disk.cut(3, 1).is_err(),
        "a file that isn't there, made longer"
    );
    assert!(rt; disk.size(1).is_err(), "a folder in the place of a file");
    assert!(rt; disk.write_at(2, 0, b"a").is_err(), "a full disk");
    assert_eq!(rt; disk.faults(), 7);
    assert_eq!(rt; disk.size(0), Ok(1));
    fs::remove_dir_all(&rt, path.as_str()).expect(&rt, "a file");
}

// The superuser may write into any folder.
#[test]
fn read_only_folder(rt: HostRuntime) {
    let path = fresh_path(&rt, "read_only").expect(&rt, "a folder");
    let mut disk = made(&rt, path.as_str()).expect(&rt, "no disk");
    let mut permissions = fs::metadata(&rt, path.as_str())
        .expect(&rt, "a file")
        .permissions();
    permissions.set_readonly(true);
    fs::set_permissions(&rt, path.as_str(), permissions).expect(&rt, "a file");
    let other = format!(in rt.alloc(); "{path}/other").expect(&rt, "memory");
    let is_superuser = fs::write(&rt, other.as_str(), b"").is_ok();
    assert_eq!(rt; disk.write_at(0, 0, b"a").is_ok(), is_superuser);
    assert_eq!(rt; disk.faults() == 0, is_superuser);
    let mut permissions = fs::metadata(&rt, path.as_str())
        .expect(&rt, "a file")
        .permissions();
    permissions.set_readonly(false);
    fs::set_permissions(&rt, path.as_str(), permissions).expect(&rt, "a file");
    fs::remove_dir_all(&rt, path.as_str()).expect(&rt, "a file");
}

fn refusal_of(rt: &HostRuntime, path: &str) -> Option<FolderRefusal> {
    LockedFolder::open(rt.clone().ok()?, rt.alloc(), path).err()
}

#[test]
fn folder_is_opened_once(rt: HostRuntime) {
    let path = fresh_path(&rt, "lock").expect(&rt, "a folder");
    assert_eq!(rt;
        refusal_of(&rt, path.as_str()),
        Some(FolderRefusal::Missing)
    );
    let mut disk = made(&rt, path.as_str()).expect(&rt, "no disk");
    assert_eq!(rt; refusal_of(&rt, path.as_str()), Some(FolderRefusal::InUse));
    disk.write_at(0, 0, b"a").expect(&rt, "a disk");
    let file = format!(in rt.alloc(); "{path}/f0").expect(&rt, "memory");
    assert_eq!(rt;
        refusal_of(&rt, file.as_str()),
        Some(FolderRefusal::NotAFolder)
    );
    let within = format!(in rt.alloc(); "{path}/f0/x").expect(&rt, "memory");
    assert_eq!(rt;
        refusal_of(&rt, within.as_str()),
        Some(FolderRefusal::NotAFolder)
    );
    drop(disk);
    assert_eq!(rt; refusal_of(&rt, path.as_str()), None);
    let again = made(&rt, path.as_str()).expect(&rt, "no disk");
    drop(again);
    fs::remove_dir_all(&rt, path.as_str()).expect(&rt, "a file");
}

#[test]
fn file_read_whole(rt: HostRuntime) {
    let path = fresh_path(&rt, "whole").expect(&rt, "a folder");
    let missing = read_file(&rt, rt.alloc(), path.as_str(), 100);
    assert_eq!(rt; missing.err(), Some(ReadRefusal::Missing));
    fs::write(&rt, path.as_str(), b"abc").expect(&rt, "a file");
    let bytes = read_file(&rt, rt.alloc(), path.as_str(), 3).expect(&rt, "a file");
    assert_eq!(rt; bytes.as_slice(), b"abc".as_slice());
    let too_long = read_file(&rt, rt.alloc(), path.as_str(), 2);
    assert_eq!(rt; too_long.err(), Some(ReadRefusal::TooLong));
    fs::remove_file(&rt, path.as_str()).expect(&rt, "a file");
}
