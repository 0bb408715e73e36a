//! Databases as SQL, and generated scripts, each with the text that is wanted.
//! The databases are made by the plain interpreter; no engine runs here.

use crate::answers::answer;
use crate::scripts::ALL;
use inno_db::Db;
use inno_types::Listed;
use rand_core::{Rng, SeedableRng};
use rand_xoshiro::SplitMix64;
use script::{ScriptBad, WriteBad, write_script};
use script_generator::{dump_text, generate};
use std::alloc::Global;
use std::test::Fail;
use store_api::NoMemory;

/// Statements that make two tables, the second with a value of each byte that is escaped.
const MADE: &str = "CREATE TABLE t (id BIGINT PRIMARY KEY, a BIGINT, KEY ka (a))
INSERT INTO t VALUES (1,10),(-1,NULL)
CREATE TABLE `a``b` (v BIGINT, k VARBINARY(32) NOT NULL, PRIMARY KEY (k))
INSERT INTO `a``b` VALUES (2,'\\0a\\n\\r\\Z\\'\\\\\\t`')";

const DUMPED: &str =
    "CREATE TABLE `t` (`id` BIGINT NOT NULL, `a` BIGINT, PRIMARY KEY (`id`), KEY `ka` (`a`));
INSERT INTO `t` VALUES (-1,NULL);
INSERT INTO `t` VALUES (1,10);
CREATE TABLE `a``b` (`v` BIGINT, `k` VARBINARY(32) NOT NULL, PRIMARY KEY (`k`));
INSERT INTO `a``b` VALUES (2,'\\0a\\n\\r\\Z\\'\\\\\t`');
";

/// Whether the database of these statements is dumped so.
fn is_dumped(alloc: Global, db: &mut Db) -> Result<bool, NoMemory> {
    for text in MADE.split("\n") {
        answer(alloc, db, text)?;
    }
    Ok(dump_text(alloc, db)?.as_slice() == DUMPED.as_bytes())
}

#[test]
fn dumps_tables_with_their_rows(rt: HostRuntime) -> Result<(), Fail> {
    let mut db = Db::new(Listed::new(rt.alloc()), Listed::new(rt.alloc()));
    let is_dumped = is_dumped(rt.alloc(), &mut db);
    drop(db);
    assert!(rt; is_dumped?);
    Ok(())
}

const GENERATED: &str = "CREATE TABLE acct (id BIGINT, bal BIGINT, PRIMARY KEY (id));
INSERT INTO acct VALUES (1,100),(2,100),(3,100),(4,100),(5,100),(6,100),(7,100),(8,100),(9,100),(10,100),(11,100),(12,100),(13,100),(14,100),(15,100),(16,100);
@session s1
BEGIN;
UPDATE acct SET bal = bal + 15 WHERE id = 5;
UPDATE acct SET bal = bal - 15 WHERE id = 16;
COMMIT;
";

/// Whether the script of the number 0, of one session and one transfer, has that text.
fn is_generated(alloc: Global) -> Result<bool, WriteBad> {
    let Ok(script) = generate(alloc, 0, 1, 1) else {
        return Ok(false);
    };
    let text = write_script(alloc, &script, ALL);
    drop(script);
    Ok(text?.as_slice() == GENERATED.as_bytes())
}

#[test]
fn generates_the_script_of_a_number(rt: HostRuntime) -> Result<(), Fail> {
    let mut words = SplitMix64::seed_from_u64(0);
    assert_eq!(rt; words.next_u64(), 0xE220_A839_7B1D_CDAF);
    assert_eq!(rt; words.next_u64(), 0x6E78_9E6A_A1B9_65F4);
    assert_eq!(rt; words.next_u64(), 0x06C4_5D18_8009_454F);
    assert!(rt; is_generated(rt.alloc())?);
    Ok(())
}

#[test]
fn generates_no_script_past_a_limit(rt: HostRuntime) {
    for (sessions, transfers, what, found, most) in [
        (1, 25_000, 2, 100_001, 100_000),
        (65, 1, 1, 65, 64),
        (65, 390, 1, 65, 64),
        (65, 391, 2, 100_001, 100_000),
    ] {
        let wanted = ScriptBad::Limit { what, found, most };
        let is_refused = generate(rt.alloc(), 0, sessions, transfers).is_err_and(|bad| bad
            == wanted);
        assert!(rt; is_refused, "{sessions} sessions of {transfers} transfers");
    }
}
