//! What the words of the command line ask for.

use super::same::{is, same};
use pdc_command_line::parse;
use std::alloc::{AllocError, Global};
use std::process::Abort;

/// Words, with a bar between two, and what they ask for. What is no command is status 2, and help is status 0. A number is decimal digits
/// alone.
const CASES: &str = r#"show -> Some(Show(Lines))
show|--format|json -> Some(Show(Json))
show|--format=csv -> Some(Show(Csv))
show|--format|xml -> status 2
show|--format -> status 2
mark-init|a.mark|65534|240 -> Some(MarkInit(MarkInit { file: "a.mark", id: StreamId { value: 65534 }, rate: 240 }))
mark-convert|a.mark|a2.mark -> Some(MarkConvert(MarkConvert { old: "a.mark", new: "a2.mark" }))
mark-show|a.mark -> Some(MarkShow("a.mark"))
mark-show -> status 2
mark-show|a.mark|x -> status 2
mark-forget|a.mark|a2.mark -> Some(MarkForget(MarkForget { old: "a.mark", new: "a2.mark" }))
mark-forget|a.mark -> status 2
mark-forget|a.mark|a2.mark|x -> status 2
node|a.toml|a.mark|--record-size|1 -> status 2
node|a.toml|a.mark|--record-keep|3 -> status 2
node|a.toml|a.mark|--record-lives|3 -> status 2
shew -> status 2
show|x -> status 2
mark-init -> status 2
mark-init|a|201 -> status 2
mark-init|a|0|50 -> status 2
mark-init|a|65535|50 -> status 2
mark-init|a|201|241 -> status 2
mark-init|a|+1|50 -> status 2
mark-init|a|201|50|x -> status 2
mark-convert -> status 2
mark-convert|a.mark -> status 2
mark-convert|a.mark|a2.mark|x -> status 2
mark-convert|--no-such-flag|a2.mark -> status 2
play|a.toml|b.toml|m.toml -> Some(Play(Play { a: "a.toml", b: "b.toml", m: "m.toml" }))
play -> status 2
play|a.toml|b.toml -> status 2
play|a.toml|b.toml|m.toml|x -> status 2
--help -> status 0
show|--help -> status 0
mark-init|--help -> status 0
mark-convert|--help -> status 0
play|--help -> status 0
help|play -> status 0
help|mark-init -> status 0
help|mark-convert -> status 0
mark-init|a|201|1 -> Some(MarkInit(MarkInit { file: "a", id: StreamId { value: 201 }, rate: 1 }))
mark-init|a|201|0050 -> Some(MarkInit(MarkInit { file: "a", id: StreamId { value: 201 }, rate: 50 }))
mark-init|a|201|240 -> Some(MarkInit(MarkInit { file: "a", id: StreamId { value: 201 }, rate: 240 }))
mark-init|a|201|0 -> status 2
mark-init|a|201| -> status 2
mark-init|a|201|+1 -> status 2
mark-init|a|201|-1 -> status 2
mark-init|a|201|1  -> status 2
mark-init|a|201|1e1 -> status 2
mark-init|a|201|65537 -> status 2
mark-init|a|201|99999999999999999999 -> status 2
mark-init|a|1|1 -> Some(MarkInit(MarkInit { file: "a", id: StreamId { value: 1 }, rate: 1 }))
node|a.toml|a.mark|4294967295 -> Some(Node(Running { settings: "a.toml", mark: "a.mark", ticks: Some(4294967295), every: None, is_quiet: false, record: None, control: None }))
node|a.toml|a.mark -> Some(Node(Running { settings: "a.toml", mark: "a.mark", ticks: None, every: None, is_quiet: false, record: None, control: None }))
node|a.toml -> status 2
merge|m.toml|m.mark|--quiet|--every|10 -> Some(Merge(Running { settings: "m.toml", mark: "m.mark", ticks: None, every: Some(10), is_quiet: true, record: None, control: None }))
node|a.toml|a.mark|--record|a.record -> Some(Node(Running { settings: "a.toml", mark: "a.mark", ticks: None, every: None, is_quiet: false, record: Some(Record { name: "a.record", size: 64, keep: None, lives: None }), control: None }))
node|a.toml|a.mark|--record|a.record|--record-size|1|--record-keep|3 -> Some(Node(Running { settings: "a.toml", mark: "a.mark", ticks: None, every: None, is_quiet: false, record: Some(Record { name: "a.record", size: 1, keep: Some(3), lives: None }), control: None }))
node|a.toml|a.mark|--record|a.record|--record-lives|2 -> Some(Node(Running { settings: "a.toml", mark: "a.mark", ticks: None, every: None, is_quiet: false, record: Some(Record { name: "a.record", size: 64, keep: None, lives: Some(2) }), control: None }))
node|a.toml|a.mark|--record|a.record|--record-lives|0 -> status 2
node|a.toml|a.mark|--record|a.record|--record-size|65537 -> status 2
node|a.toml|a.mark|0 -> status 2
node|a.toml|a.mark|4294967296 -> status 2
node|a.toml|a.mark|--control|a.control -> Some(Node(Running { settings: "a.toml", mark: "a.mark", ticks: None, every: None, is_quiet: false, record: None, control: Some("a.control") }))
node|a.toml|a.mark|--control -> status 2
stop|a.control -> Some(Stop("a.control"))
stop -> status 2
stop|a.control|x -> status 2
status|a.control -> Some(Status(Status { path: "a.control", is_json: false }))
status|--json|a.control -> Some(Status(Status { path: "a.control", is_json: true }))
status|a.control|--format|json -> status 2
status|--json -> status 2
stop|--help -> status 0
help|status -> status 0
merge|m.toml|m.mark|1 -> Some(Merge(Running { settings: "m.toml", mark: "m.mark", ticks: Some(1), every: None, is_quiet: false, record: None, control: None }))
merge|m.toml|m.mark|1|x -> status 2
pmu|11|50|3|4811|4911 -> Some(Pmu(Simulated { id: StreamId { value: 11 }, rate: 50, count: 3, places: [Port(4811), Port(4911)], tcp: None, config_every: None, is_grid: false }))
pmu|11|50|3|4811|--config-every|5 -> Some(Pmu(Simulated { id: StreamId { value: 11 }, rate: 50, count: 3, places: [Port(4811)], tcp: None, config_every: Some(5), is_grid: false }))
pmu|11|50|3|4811|--config-every|0 -> status 2
pmu|11|50|3|4811|--config-every|86401 -> status 2
pmu|11|50|3 -> status 2
pmu|11|50|3|4811|65536 -> status 2
pmu|11|50|3|10.0.0.2:4811 -> Some(Pmu(Simulated { id: StreamId { value: 11 }, rate: 50, count: 3, places: [At("10.0.0.2:4811")], tcp: None, config_every: None, is_grid: false }))
pmu|11|50|3|--tcp|4712 -> Some(Pmu(Simulated { id: StreamId { value: 11 }, rate: 50, count: 3, places: [], tcp: Some(Port(4712)), config_every: None, is_grid: false }))
pmu|11|50|3|--tcp|0.0.0.0:4712 -> Some(Pmu(Simulated { id: StreamId { value: 11 }, rate: 50, count: 3, places: [], tcp: Some(At("0.0.0.0:4712")), config_every: None, is_grid: false }))
pmu|11|50|3|4811|--grid -> Some(Pmu(Simulated { id: StreamId { value: 11 }, rate: 50, count: 3, places: [Port(4811)], tcp: None, config_every: None, is_grid: true }))
pmu|11|50|3|--tcp|0 -> status 2
pmu|--help -> status 0
node|--every|10|a.toml|a.mark|5 -> Some(Node(Running { settings: "a.toml", mark: "a.mark", ticks: Some(5), every: Some(10), is_quiet: false, record: None, control: None }))
merge|m.toml|m.mark|5|--every=86400 -> Some(Merge(Running { settings: "m.toml", mark: "m.mark", ticks: Some(5), every: Some(86400), is_quiet: false, record: None, control: None }))
node|a.toml|a.mark|5|--every|0 -> status 2
node|a.toml|a.mark|5|--every|86401 -> status 2
node|a.toml|a.mark|5|--every -> status 2
listen|4751 -> Some(Listen(Listen { port: 4751, count: None }))
listen|65535|4294967295 -> Some(Listen(Listen { port: 65535, count: Some(4294967295) }))
listen|0 -> status 2
listen|4751|0 -> status 2
listen -> status 2
"#;

/// How many they are.
const ROWS: usize = 99;

/// The words of a line.
fn words(alloc: Global, line: &str) -> Result<Vec<String>, AllocError> {
    let mut words = Vec::new(alloc);
    for word in line.split('|') {
        words.push(String::from_str(alloc, word)?)?;
    }
    Ok(words)
}

/// What these words ask for, or the exit status with which they are refused.
fn asked(alloc: Global, words: &[String]) -> Result<String, AllocError> {
    match parse(alloc, words) {
        Ok(request) => format!(in alloc; "{request:?}"),
        Err(error) => format!(in alloc; "status {}", error.exit_code()),
    }
}

/// The words ask for this.
fn is_asked(rt: &(impl Abort + AllocGlobal), words: &[String], wanted: &str, line: &str) {
    let found = asked(rt.alloc(), words).expect(rt, "memory");
    same(rt, &found.as_str(), &wanted, line);
}

#[test]
fn what_words_ask_for(rt: HostRuntime) {
    let mut rows: usize = 0;
    for case in CASES.lines() {
        let (line, wanted) = case
            .split_once(" -> ")
            .expect(&rt, "words and what they ask for");
        let words = words(rt.alloc(), line).expect(&rt, "memory");
        is_asked(&rt, &words, wanted, line);
        rows = rows.saturating_add(1);
    }
    is!(&rt; rows, ROWS);
    is_asked(&rt, &[], "status 2", "no words");
}
