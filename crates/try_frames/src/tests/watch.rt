//! What is shown of a pair, as JSON.

use super::same::is;
use pdc_watch::{Now, Origin, Three, Watch, json_of};
use std::alloc::{AllocError, Global};
use std::process::Abort;

const NOTHING: &str = "{\"nowMs\":2500,\"begunMs\":1000,\"rate\":50,\"untilMs\":1600,\"streams\":[\
{\"name\":\"A\",\"address\":\"a:1\",\"wait\":2,\"waitKind\":\"Relative\",\"connected\":false,\"alive\":false,\"sinceMs\":1000,\"ageMs\":null,\"start\":0,\"change\":0,\"lastMs\":null,\
\"behindMs\":null,\"behindMedianMs\":null,\"behindP99Ms\":null,\"publishedMedianMs\":null,\"publishedP99Ms\":null,\"afterDataMedianMs\":null,\
\"afterDataP99Ms\":null,\"framesASecond\":0,\"frames\":0,\"unread\":0},\
{\"name\":\"B\",\"address\":\"b:2\",\"wait\":2,\"waitKind\":\"Relative\",\"connected\":false,\"alive\":false,\"sinceMs\":1000,\"ageMs\":null,\"start\":0,\"change\":0,\"lastMs\":null,\
\"behindMs\":null,\"behindMedianMs\":null,\"behindP99Ms\":null,\"publishedMedianMs\":null,\"publishedP99Ms\":null,\"afterDataMedianMs\":null,\
\"afterDataP99Ms\":null,\"framesASecond\":0,\"frames\":0,\"unread\":0},\
{\"name\":\"M\",\"address\":\"m:3\",\"wait\":2,\"waitKind\":\"Relative\",\"connected\":false,\"alive\":false,\"sinceMs\":1000,\"ageMs\":null,\"start\":0,\"change\":0,\"lastMs\":null,\
\"behindMs\":null,\"behindMedianMs\":null,\"behindP99Ms\":null,\"publishedMedianMs\":null,\"publishedP99Ms\":null,\"afterDataMedianMs\":null,\
\"afterDataP99Ms\":null,\"framesASecond\":0,\"frames\":0,\"unread\":0}],\
\"pmus\":[],\"agreement\":{\"instants\":0,\"equal\":0,\"different\":0}}";

/// A stream from this address, whose concentrator waits for two ticks.
fn origin(alloc: Global, address: &str) -> Result<Origin, AllocError> {
    Ok(Origin {
        address: String::from_str(alloc, address)?,
        wait: 2,
        wait_kind: String::from_str(alloc, "Relative")?,
    })
}

fn origins(alloc: Global) -> Result<Three<Origin>, AllocError> {
    Ok(Three {
        a: origin(alloc, "a:1")?,
        b: origin(alloc, "b:2")?,
        m: origin(alloc, "m:3")?,
    })
}

/// So many milliseconds since 1970, and a tenth of them since the program began.
fn time(utc_ms: u64) -> Now {
    Now {
        utc_ms,
        steady_ms: utc_ms / 10,
    }
}

/// This is shown of it.
fn is_shown(rt: &(impl Abort + AllocGlobal), watch: &Watch, origins: &Three<Origin>, wanted: &str) {
    let text = json_of(rt.alloc(), watch, origins, time(2500)).expect(rt, "memory");
    is!(rt; text.as_slice(), wanted.as_bytes());
}

#[test]
fn nothing_known_yet(rt: HostRuntime) {
    let watch = Watch::new(rt.alloc(), 50, time(1000)).expect(&rt, "memory");
    let origins = origins(rt.alloc()).expect(&rt, "memory");
    is_shown(&rt, &watch, &origins, NOTHING);
}
