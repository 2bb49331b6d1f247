//! What ends a node before it runs, in the order in which it is found, and a short run.

use pdc_mark::make_mark;
use pdc_service::{
    Files, Host, RunOptions, ServiceFault, ThisMachine, Totals, serve_merger, serve_node,
};
use std::alloc::Global;
use std::env::Env;
use std::fs::File;
use std::net::{TcpListener, UdpSocket};
use std::path::PathBuf;
use std::{env, fs, io};
use try_script::SettingsText;

/// A run of so many ticks that tells no more than faults.
fn ticks(count: u32) -> RunOptions<'static> {
    RunOptions {
        ticks: Some(count),
        every: None,
        is_quiet: true,
        control: None,
    }
}

/// Prints what a run counted.
fn print_totals<R: Print>(rt: &R, name: &str, totals: &Totals) -> io::Result<()> {
    let (taken, refused, published) = (totals.taken, totals.refused, totals.published);
    println!(rt; "  {name}: taken={taken} refused={refused} published={published}")
}

/// Prints what ended a run, or kept it from its start.
fn print_fault<R: Print>(rt: &R, name: &str, fault: &ServiceFault) -> io::Result<()> {
    let status = fault.status();
    println!(rt; "  {name}: {fault}, status {status}")
}

/// Prints what came of a run.
fn print_run<R: Print>(rt: &R, name: &str, ended: &Result<Totals, ServiceFault>) -> io::Result<()> {
    match ended {
        Ok(totals) => print_totals(rt, name, totals),
        Err(fault) => print_fault(rt, name, fault),
    }
}

/// The files of a run.
#[derive(Drop)]
struct Paths {
    settings: PathBuf,
    mark: PathBuf,
}

/// Those of these names in the folder.
fn paths_of(alloc: Global, folder: &PathBuf, settings: &str, mark: &str) -> io::Result<Paths> {
    Ok(Paths {
        settings: folder.join(alloc, settings)?,
        mark: folder.join(alloc, mark)?,
    })
}

/// Runs the node with these files of the folder for three ticks, and prints what came of it.
fn play_node<R: Host + Print>(
    rt: &R,
    alloc: Global,
    folder: &PathBuf,
    name: &str,
    settings: &str,
    mark: &str,
) -> io::Result<()> {
    let paths = paths_of(alloc, folder, settings, mark)?;
    let files = Files {
        settings: paths.settings.as_str(),
        mark: paths.mark.as_str(),
        record: None,
    };
    let ended = serve_node(rt, &mut ThisMachine, &files, &ticks(3));
    print_run(rt, name, &ended)
}

/// Hands the node's files to the merger, and prints what came of it.
fn play_merger<R: Host + Print>(rt: &R, alloc: Global, folder: &PathBuf) -> io::Result<()> {
    let paths = paths_of(alloc, folder, "a.toml", "a.mark")?;
    let files = Files {
        settings: paths.settings.as_str(),
        mark: paths.mark.as_str(),
        record: None,
    };
    let ended = serve_merger(rt, &mut ThisMachine, &files, &ticks(1));
    print_run(rt, "a node's settings to the merger", &ended)
}

/// Makes an empty folder of this process's own.
fn make_folder<R: std::rt::Files<File = File> + AllocGlobal + Env>(
    rt: &R,
    alloc: Global,
    process: u32,
) -> io::Result<PathBuf> {
    let name = format!(in alloc; "pdc_service_trials_{process}")?;
    let folder = env::temp_dir(rt)?.join(alloc, name)?;
    let _ = fs::remove_dir_all(rt, &folder);
    fs::create_dir(rt, &folder)?;
    Ok(folder)
}

/// Writes a file of the folder.
fn write_file<R: std::rt::Files<File = File> + AllocGlobal>(
    rt: &R,
    alloc: Global,
    folder: &PathBuf,
    name: &str,
    text: &str,
) -> io::Result<()> {
    let path = folder.join(alloc, name)?;
    fs::write(rt, &path, text)
}

/// Makes a mark file of the folder, for this id.
fn make_mark_of<R: std::rt::Files<File = File> + AllocGlobal>(
    rt: &R,
    alloc: Global,
    folder: &PathBuf,
    name: &str,
    id: u16,
) -> io::Result<()> {
    let path = folder.join(alloc, name)?;
    make_mark(rt, path.as_str(), id, 50).map_err(|_| io::Error::from(io::ErrorKind::Other))
}

/// Writes the settings of a node whose ports begin here.
fn write_settings<R: std::rt::Files<File = File> + AllocGlobal>(
    rt: &R,
    alloc: Global,
    folder: &PathBuf,
    name: &str,
    wait: u64,
    port: u16,
) -> io::Result<()> {
    let said = SettingsText {
        wait,
        out_port: port.saturating_add(2),
        ..SettingsText::of(201)
    };
    let text = said.node(alloc, &[11, 12], port)?;
    write_file(rt, alloc, folder, name, &text)
}

/// Makes the files: settings that are good, no TOML or out of range, the mark of the node and that of another.
fn make_files<R: std::rt::Files<File = File> + AllocGlobal>(
    rt: &R,
    alloc: Global,
    folder: &PathBuf,
    port: u16,
) -> io::Result<()> {
    write_settings(rt, alloc, folder, "a.toml", 2, port)?;
    write_file(rt, alloc, folder, "no.toml", "x")?;
    write_settings(rt, alloc, folder, "range.toml", 0, port)?;
    make_mark_of(rt, alloc, folder, "a.mark", 201)?;
    make_mark_of(rt, alloc, folder, "b.mark", 202)
}

/// The faults of files in their order, and that of a PMU's port, each with all later causes there too where they can be.
fn play_files<R: Host + Print>(rt: &R, alloc: Global, folder: &PathBuf) -> io::Result<()> {
    play_node(rt, alloc, folder, "no settings file", "missing", "missing")?;
    play_node(rt, alloc, folder, "no TOML", "no.toml", "missing")?;
    play_node(rt, alloc, folder, "out of range", "range.toml", "missing")?;
    play_node(rt, alloc, folder, "no mark file", "a.toml", "missing")?;
    play_node(rt, alloc, folder, "another's mark", "a.toml", "b.mark")?;
    play_node(
        rt,
        alloc,
        folder,
        "a PMU's port is taken",
        "a.toml",
        "a.mark",
    )
}

/// The same, while a PMU's port is taken.
fn play_taken<R: Host + Print>(
    rt: &R,
    alloc: Global,
    folder: &PathBuf,
    port: u16,
) -> io::Result<()> {
    let _taken = UdpSocket::bind(rt, ("127.0.0.1", port))?;
    play_files(rt, alloc, folder)
}

/// The fault of the sessions' port.
fn play_sessions<R: Host + Print>(
    rt: &R,
    alloc: Global,
    folder: &PathBuf,
    port: u16,
) -> io::Result<()> {
    let _listener = TcpListener::bind(rt, ("127.0.0.1", port.saturating_add(3)))?;
    play_node(
        rt,
        alloc,
        folder,
        "the port of the sessions is taken",
        "a.toml",
        "a.mark",
    )
}

/// All faults, a short run, and the merger that is handed the node's files.
fn play_all<R: Host + Print>(rt: &R, alloc: Global, folder: &PathBuf, port: u16) -> io::Result<()> {
    make_files(rt, alloc, folder, port)?;
    play_taken(rt, alloc, folder, port)?;
    play_sessions(rt, alloc, folder, port)?;
    play_node(rt, alloc, folder, "three ticks", "a.toml", "a.mark")?;
    play_merger(rt, alloc, folder)
}

/// What ends a node before it runs, and a short run.
pub fn play<R: Host + Env + Print>(
    rt: &R,
    alloc: Global,
    process: u32,
    port: u16,
) -> io::Result<()> {
    println!(rt; "files and ports")?;
    let folder = make_folder(rt, alloc, process)?;
    let played = play_all(rt, alloc, &folder, port);
    fs::remove_dir_all(rt, &folder)?;
    played
}
