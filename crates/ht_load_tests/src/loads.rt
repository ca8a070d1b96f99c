use ht_desk::{LEAST_LIMIT, open};
use ht_load::{load, write_sums};
use ht_outside::{MemorySink, RoomDisk};
use std::alloc::Global;
use std::test::Fail;

const MODELS: &str = "[[model]]\nname = \"unit\"\npotentialOwners = \"everybody\"\n";

const PEOPLE: &str = "\
[[person]]\nname = \"p0\"\n[[person]]\nname = \"p1\"\n[[person]]\nname = \"p2\"\n[[person]]\nname = \"p3\"
[[person]]\nname = \"p4\"\n[[person]]\nname = \"p5\"\n[[person]]\nname = \"p6\"\n[[person]]\nname = \"p7\"
[[person]]\nname = \"p8\"\n[[person]]\nname = \"p9\"\n[[person]]\nname = \"p10\"\n[[person]]\nname = \"p11\"
[[person]]\nname = \"p12\"\n[[person]]\nname = \"p13\"\n[[person]]\nname = \"p14\"\n[[person]]\nname = \"p15\"
";

// A seed and how many requests, and what is told of them in an office that is new. The sums were worked out by
// another program, which knows the states of a task and who may act on it, and nothing of this one.
const LOADS: &str = "\
7 0 => requests 0 accepted 0 refused 0 tasks 0
7 1 => requests 1 accepted 1 refused 0 tasks 1
7 12 => requests 12 accepted 8 refused 4 tasks 5
0 5 => requests 5 accepted 4 refused 1 tasks 3
18446744073709551615 40 => requests 40 accepted 23 refused 17 tasks 13
7 2000 => requests 2000 accepted 826 refused 1174 tasks 486";

fn told(alloc: Global, asked: &str) -> Result<MemorySink, Fail> {
    let (seed, count) = asked.split_once(" ").ok_or("a seed")?;
    let seed = seed.parse::<u64>()?;
    let count = count.parse::<u32>()?;
    let models = MODELS.as_bytes();
    let people = PEOPLE.as_bytes();
    if models.len() > 262_144 || people.len() > 262_144 {
        return Err(Fail::from("too long a text"));
    }
    let mut disk = RoomDisk::make(alloc, LEAST_LIMIT)?;
    let mut desk = open(alloc, models, people, &mut disk, LEAST_LIMIT)?;
    let sums = load(alloc, &mut desk, &mut disk, seed, count);
    let mut output = MemorySink::make(alloc, Vec::new(alloc))?;
    write_sums(sums, &mut output)?;
    Ok(output)
}

#[test]
fn loads_of_new_offices(rt: HostRuntime) -> Result<(), Fail> {
    for line in LOADS.lines() {
        let (asked, want) = line.split_once(" => ").ok_or("a load")?;
        let output = told(rt.alloc(), asked)?;
        let want = format!(in rt.alloc(); "{want}\n")?;
        assert!(rt; output.written() == want.as_bytes(), "{line}");
    }
    Ok(())
}
