use crate::folder::FolderExporter;
use crate::keeper_file::FileKeeper;
use crate::mirror_folder::FolderMirror;
use crate::output::Output;
use crate::shelf_files::FileShelf;
use osb_base::{
    Digest, Exporter, Fetched, Fetcher, Keeper, ReadStop, Shelf, Sink, Text, WriteStop,
};
use std::alloc::AllocError;
use std::test::Fail;
use std::{env, fs, io, process};

/// A new folder for a test, among the system's temporary files.
fn new_folder(rt: &HostRuntime, name: &str) -> io::Result<String> {
    let number = process::id(rt.process());
    let folder = env::temp_dir(rt)?;
    let folder = format!(in rt.alloc(); "{}/osb_host-{number}-{name}", folder.as_str())?;
    fs::create_dir(rt, folder.as_str())?;
    Ok(folder)
}

fn within(rt: &HostRuntime, folder: &String, name: &str) -> Result<String, AllocError> {
    format!(in rt.alloc(); "{folder}/{name}")
}

#[test]
fn shelf_reads_files(rt: HostRuntime) -> Result<(), Fail> {
    let folder = new_folder(&rt, "shelf")?;
    let file = within(&rt, &folder, "m.json")?;
    fs::write(&rt, file.as_str(), "{}")?;
    let mut shelf = FileShelf::new(rt);
    let whole: &[u8] = b"{}";
    for (name, want) in [
        ("m.json", Some(whole)),
        ("absent", None),
        ("no/m.json", None),
    ] {
        let name = within(&rt, &folder, name)?;
        match shelf.read(rt.alloc(), name.as_str()) {
            Ok(found) => assert_eq!(rt; found.as_ref().map(|bytes| bytes.as_slice()), want),
            Err(_) => panic!(rt; "{name}"),
        }
    }
    assert!(rt; matches!(shelf.read(rt.alloc(), ""), Ok(None)));
    assert_eq!(rt; shelf.faults(), 0);
    for (name, count) in [("", 1), ("m.json/x", 2)] {
        let name = within(&rt, &folder, name)?;
        let found = shelf.read(rt.alloc(), name.as_str());
        assert!(rt; matches!(found, Err(ReadStop::Failed)), "{name}");
        assert_eq!(rt; shelf.faults(), count, "{name}");
    }
    fs::remove_dir_all(&rt, folder.as_str())?;
    Ok(())
}

#[test]
fn exporter_makes_folders_and_files(rt: HostRuntime) -> Result<(), Fail> {
    let alloc = rt.alloc();
    let folder = new_folder(&rt, "exporter")?;
    let root = within(&rt, &folder, "out")?;
    let mut exporter = FolderExporter::new(rt, root.as_str());
    for path in ["os/tree", "os/tree/etc", "os/tree/etc"] {
        assert_eq!(rt; exporter.dir(alloc, path, 0o755, 0, 0), Ok(()), "{path}");
    }
    let path = "os/tree/etc/hostname";
    for text in ["a long name", "host"] {
        assert_eq!(rt;
            exporter.file(alloc, path, 0o644, 0, 0, text.as_bytes()),
            Ok(())
        );
    }
    assert_eq!(rt;
        exporter.link(alloc, "os/tree/bin", 0, 0, "usr/bin"),
        Ok(())
    );
    assert_eq!(rt; exporter.finish(alloc, "os", b"a list\n"), Ok(()));
    for (path, want) in [(path, "host"), ("os/list", "a list\n")] {
        let place = within(&rt, &root, path)?;
        let text = fs::read_to_string(&rt, place.as_str())?;
        assert_eq!(rt; text.as_str(), want, "{path}");
    }
    assert_eq!(rt; exporter.faults(), 0);
    let failed = Err(WriteStop::Failed);
    assert_eq!(rt; exporter.dir(alloc, "os/list", 0o755, 0, 0), failed);
    assert_eq!(rt; exporter.file(alloc, "os/tree", 0o644, 0, 0, b"x"), failed);
    assert_eq!(rt; exporter.finish(alloc, "absent", b""), failed);
    assert_eq!(rt; exporter.faults(), 3);
    fs::remove_dir_all(&rt, folder.as_str())?;
    Ok(())
}

#[test]
fn output_takes_pieces(rt: HostRuntime) {
    let mut out = Output::new(rt);
    for piece in ["a piece\n", ""] {
        assert_eq!(rt; out.write(piece.as_bytes()), Ok(piece.len()), "{piece:?}");
    }
}

#[test]
fn keeper_replaces_its_file(rt: HostRuntime) -> Result<(), Fail> {
    let alloc = rt.alloc();
    let folder = new_folder(&rt, "keeper")?;
    let name = within(&rt, &folder, "store")?;
    let mut keeper = FileKeeper::new(rt, name.as_str());
    assert!(rt; matches!(keeper.load(alloc), Ok(None)));
    for text in ["a long text", "text", ""] {
        assert_eq!(rt; keeper.save(alloc, text.as_bytes()), Ok(()));
        match keeper.load(alloc) {
            Ok(Some(bytes)) => assert_eq!(rt; bytes.as_slice(), text.as_bytes()),
            _ => panic!(rt; "{text}"),
        }
    }
    let second = within(&rt, &folder, "store.new")?;
    assert!(rt; !fs::exists(&rt, second.as_str())?);
    assert_eq!(rt; keeper.faults(), 0);
    // A folder has the second name, and then the first: what was saved stays.
    fs::create_dir(&rt, second.as_str())?;
    assert_eq!(rt; keeper.save(alloc, b"lost"), Err(WriteStop::Failed));
    assert!(rt; matches!(keeper.load(alloc), Ok(Some(bytes)) if bytes.as_slice().is_empty()));
    let mut blocked = FileKeeper::new(rt, folder.as_str());
    assert!(rt; matches!(blocked.load(alloc), Err(ReadStop::Failed)));
    assert_eq!(rt; blocked.save(alloc, b"lost"), Err(WriteStop::Failed));
    assert_eq!(rt; (keeper.faults(), blocked.faults()), (1, 2));
    fs::remove_dir_all(&rt, folder.as_str())?;
    Ok(())
}

#[test]
fn mirror_gives_items_of_its_folder(rt: HostRuntime) -> Result<(), Fail> {
    let alloc = rt.alloc();
    let folder = new_folder(&rt, "mirror")?;
    let text = "sha256:e3b0c44298fc1c149afbf4c8996fb92427ae41e4649b934ca495991b7852b855";
    let Ok(digest) = Digest::read(text) else {
        panic!(rt; "{text}")
    };
    let item = within(&rt, &folder, text)?;
    let absent = within(&rt, &folder, "absent")?;
    let mut mirror = FolderMirror::new(rt, Text::new(alloc, folder.as_str())?);
    assert!(rt; matches!(mirror.fetch(alloc, &digest), Ok(Fetched::Absent)));
    fs::write(&rt, item.as_str(), "an item")?;
    match mirror.fetch(alloc, &digest) {
        Ok(Fetched::Bytes(bytes)) => assert_eq!(rt; bytes.as_slice(), "an item".as_bytes()),
        _ => panic!(rt; "{text}"),
    }
    let mut gone = FolderMirror::new(rt, Text::new(alloc, absent.as_str())?);
    fs::create_dir(&rt, absent.as_str())?;
    assert!(rt; matches!(gone.fetch(alloc, &digest), Ok(Fetched::Gone)));
    let mut file = FolderMirror::new(rt, Text::new(alloc, item.as_str())?);
    assert!(rt; matches!(file.fetch(alloc, &digest), Err(ReadStop::Failed)));
    assert_eq!(rt; (mirror.faults(), gone.faults(), file.faults()), (0, 0, 1));
    fs::remove_dir_all(&rt, folder.as_str())?;
    Ok(())
}
