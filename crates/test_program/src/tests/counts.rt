//! What a run counts, worked out by hand, and what the servers count of it.

ghost use Rattle.std.specs.Prelude.{◌≡◌};

use crate::tests::catalogs::names;
use crate::tests::pages::{Page, expect_page};
use crate::tests::shell::sink;
use aql_block::Tally;
use aql_engine::{Engine, Rans};
use aql_io::MemorySource;
use aql_local::Local;
use aql_net::Schedule;
use aql_plan::Plan;
use aql_shard::Servers;
use aql_top::run_shell;
use aql_value::OutOfMemory;
use std::alloc::Global;

// An engine, and what the servers had counted after its last run.
#[derive(Drop)]
struct Watched {
    engine: Local,
    servers: Tally,
}

impl Engine<Schedule> for Watched {
    ghost entries = { λ s. ⟦<Local as Engine<Schedule>>⟧.entries s.engine };

    fn run(
        &mut self,
        alloc: Global,
        plan: Plan,
        servers: &mut Servers,
        picker: &mut Schedule,
        batch: u32,
    ) -> Result<(), OutOfMemory> {
        let ran = self.engine.run(alloc, plan, servers, picker, batch);
        self.servers = servers.counts();
        ran
    }

    fn held(&self) -> &Rans {
        <Local as Engine<Schedule>>::held(&self.engine)
    }
}

fn put_tally(page: &mut Page, tally: &Tally) {
    page.put(" full ");
    page.put_shown(&tally.scanned_full);
    page.put(" index ");
    page.put_shown(&tally.scanned_index);
    page.put(" filtered ");
    page.put_shown(&tally.filtered);
}

// Runs a script, and writes how many values each entry has, what it counts, and what the servers
// counted.
fn counts(alloc: Global, script: Vec<u8>, rules: &str, batch: &str) -> Page {
    let mut page = Page::new(alloc);
    let words = names(alloc, &["aql_shell", "--rules", rules, "--batch", batch]);
    let mut out = sink(alloc, 1000, None, 1000);
    let mut err = sink(alloc, 1000, None, 100);
    let mut source = MemorySource::new(script, 1000, None);
    let mut engine = Watched {
        engine: Local::new(alloc),
        servers: Tally::new(),
    };
    let status = run_shell(alloc, &words, &mut source, &mut out, &mut err, &mut engine);
    page.put_shown(&status);
    for ran in engine.held().as_slice() {
        page.put(": values ");
        page.put_shown(&ran.values.len());
        put_tally(&mut page, &ran.tally);
    }
    page.put("; servers");
    put_tally(&mut page, &engine.servers);
    page
}

const FOUR: &str = "%document c\n{\"_key\":\"p\"}\n{\"_key\":\"q\",\"n\":true}\n\
    {\"_key\":\"r\",\"n\":3}\n{\"_key\":\"s\",\"n\":\"x\"}\n%query\n";

const FOUR_BY_N: &str = "%document c\n%index c n\n{\"_key\":\"p\"}\n\
    {\"_key\":\"q\",\"n\":true}\n{\"_key\":\"r\",\"n\":3}\n{\"_key\":\"s\",\"n\":\"x\"}\n%query\n";

const ORDERS: &str = "%document customers\n{\"_key\":\"c1\",\"city\":\"Oslo\"}\n\
    {\"_key\":\"c2\",\"city\":\"Rome\"}\n{\"_key\":\"c3\",\"city\":\"Oslo\"}\n%document orders\n\
    {\"_key\":\"1\",\"customer\":\"c1\",\"total\":40}\n\
    {\"_key\":\"2\",\"customer\":\"c3\",\"total\":15}\n\
    {\"_key\":\"3\",\"customer\":\"c1\",\"total\":5}\n\
    {\"_key\":\"4\",\"customer\":\"c9\",\"total\":99}\n%query\n";

const PEOPLE: &str = "%document people\n{\"_key\":\"ann\"}\n{\"_key\":\"bob\"}\n{\"_key\":\"cy\"}\n\
    {\"_key\":\"dee\"}\n{\"_key\":\"eve\"}\n%edge knows\n\
    {\"_key\":\"1\",\"_from\":\"people/ann\",\"_to\":\"people/bob\"}\n\
    {\"_key\":\"2\",\"_from\":\"people/ann\",\"_to\":\"people/cy\"}\n\
    {\"_key\":\"3\",\"_from\":\"people/bob\",\"_to\":\"people/dee\"}\n\
    {\"_key\":\"4\",\"_from\":\"people/cy\",\"_to\":\"people/dee\"}\n\
    {\"_key\":\"5\",\"_from\":\"people/cy\",\"_to\":\"people/eve\"}\n\
    {\"_key\":\"6\",\"_from\":\"people/eve\",\"_to\":\"people/ann\"}\n%query\n";

const TEN: &str = "%document c\n{\"_key\":\"1\"}\n{\"_key\":\"2\"}\n{\"_key\":\"3\"}\n\
    {\"_key\":\"4\"}\n{\"_key\":\"5\"}\n{\"_key\":\"6\"}\n{\"_key\":\"7\"}\n{\"_key\":\"8\"}\n\
    {\"_key\":\"9\"}\n{\"_key\":\"10\"}\n%query\n";

// Lines of a script, its query, the rules, how many values it gives, and what is counted.
static ROWS: [(&str, &str, &str, &str); 11] = [
    // each document once; of the last one n is not below 5
    (
        FOUR,
        "FOR d IN c FILTER d.n < 5 RETURN d._key",
        "none",
        "0: values 3 full 4 index 0 filtered 1; servers full 4 index 0 filtered 0",
    ),
    (
        FOUR,
        "FOR d IN c FILTER d.n < 5 RETURN d._key",
        "all",
        "0: values 3 full 4 index 0 filtered 1; servers full 4 index 0 filtered 0",
    ),
    // by an index no more than the three, and none is asked again; in its order each one once
    (
        FOUR_BY_N,
        "FOR d IN c FILTER d.n < 5 RETURN d._key",
        "all",
        "0: values 3 full 0 index 3 filtered 0; servers full 0 index 3 filtered 0",
    ),
    (
        FOUR_BY_N,
        "FOR d IN c SORT d.n DESC RETURN d._key",
        "all",
        "0: values 4 full 0 index 4 filtered 0; servers full 0 index 4 filtered 0",
    ),
    // four orders, and for each of them three customers; two of the twelve pairs pass
    (
        ORDERS,
        "FOR o IN orders FOR c IN customers FILTER c._key == o.customer && o.total >= 10 \
        SORT o.total DESC RETURN c.city",
        "none",
        "0: values 2 full 16 index 0 filtered 10; servers full 16 index 0 filtered 0",
    ),
    // Ann; her three edges and their ends; of these two, three and two edges, on four of which the
    // path goes on to another end
    (
        PEOPLE,
        "FOR v IN 2 ANY \"people/ann\" knows RETURN v._key",
        "none",
        "0: values 4 full 0 index 18 filtered 0; servers full 0 index 18 filtered 0",
    ),
    // each of the 18 once more for each of two values of x
    (
        PEOPLE,
        "FOR x IN [1, 2] FOR v IN 2 ANY \"people/ann\" knows FILTER v._key != \"dee\" RETURN x",
        "none",
        "0: values 4 full 0 index 36 filtered 4; servers full 0 index 36 filtered 0",
    ),
    // no document beyond those that are given
    (
        TEN,
        "FOR x IN c LIMIT 3 RETURN x",
        "none",
        "0: values 3 full 3 index 0 filtered 0; servers full 3 index 0 filtered 0",
    ),
    (
        TEN,
        "FOR x IN c LIMIT 2, 3 RETURN x",
        "all",
        "0: values 3 full 3 index 0 filtered 0; servers full 3 index 0 filtered 0",
    ),
    // each document, however few rows are wanted of a sort
    (
        TEN,
        "FOR x IN c SORT x._key DESC LIMIT 3 RETURN x",
        "all",
        "0: values 3 full 10 index 0 filtered 0; servers full 10 index 0 filtered 0",
    ),
    (
        TEN,
        "FOR x IN c COLLECT size = LENGTH(x._key) AGGREGATE n = COUNT() RETURN [size, n]",
        "none",
        "0: values 2 full 10 index 0 filtered 0; servers full 10 index 0 filtered 0",
    ),
];

// The servers counted what the tally says was read, however few rows a step has.
#[test]
fn counts_are_right(rt: HostRuntime) {
    let alloc = rt.alloc();
    for (lines, query, rules, want) in &ROWS {
        for batch in ["1", "3", "1000"] {
            let mut script = lines.as_bytes().to_vec(alloc).unwrap_or(Vec::new(alloc));
            let _ = script.extend_from_slice(query.as_bytes());
            let page = counts(alloc, script, rules, batch);
            expect_page(&rt, &page, want, query);
        }
    }
}
