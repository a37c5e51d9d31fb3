//! What a test reports of its calls on standard output: where one starts, and what it answered.

/// What a call belongs to, and its name.
pub type Call = (&'static str, &'static str);

/// Reports one line of a call.
fn tell(rt: &impl Print, what: &str, call: Call) {
    let (owner, name) = call;
    let _ = rt.print(what);
    let _ = rt.print(owner);
    let _ = rt.print("::");
    let _ = rt.println(name);
}

/// Reports that a call starts.
pub fn begin(rt: &impl Print, call: Call) {
    tell(rt, "call: ", call);
}

/// Reports that a call has ended, and whether it ran out of memory.
pub fn end(rt: &impl Print, call: Call, is_wanting: bool) {
    if is_wanting {
        tell(rt, "memory: ", call);
    } else {
        tell(rt, "answer: ", call);
    }
}
