//! Texts of statements and their trees: the statements that scripts hold, then what the grammar tells apart.
//! A case is a text and its tree, with an arrow between them; a semicolon at a line's end ends it.

use crate::statement::tree;
use std::alloc::{AllocError, Global};
use std::test::Fail;

/// What scripts hold, and what is refused only when it runs.
const SCRIPTS: &str =
    "-- accounts\nCREATE TABLE IF NOT EXISTS `acct` (`id` bigint NOT NULL, PRIMARY KEY (`id`)) ENGINE=InnoDB => create if-not-exists acct (id bigint not-null, primary id);
INSERT INTO `acct` VALUES (1,100),(2,100) => insert acct values (1, 100), (2, 100);
 # two rows\nSET autocommit=0 => autocommit off;
SELECT bal FROM acct WHERE id = 1 LOCK IN SHARE MODE => select bal from acct where (id = 1) lock S;
update acct set bal = bal - 30 where id = 1 => update acct set bal = (bal - 30) where (id = 1);
 /* out */\nupdate acct set bal = bal + 30 where id = 2 => update acct set bal = (bal + 30) where (id = 2);
COMMIT => commit;
select * from acct => select * from acct;
CREATE TABLE t (id BIGINT, a BIGINT, PRIMARY KEY (id), KEY ka (a)) => create t (id bigint, a bigint, primary id, key ka on a);
INSERT INTO t VALUES (1,1),(2,6),(3,7) => insert t values (1, 1), (2, 6), (3, 7);
UPDATE t SET a = a + 10 WHERE a > 5 => update t set a = (a + 10) where (a > 5);
INSERT INTO t VALUES (4,9223372036854775807) => insert t values (4, 9223372036854775807);
CREATE TABLE v (k VARBINARY(2), PRIMARY KEY (k)) => create v (k varbinary 2, primary k);
SELECT * FROM nope => select * from nope;
SELECT z FROM t => select z from t;
INSERT INTO t VALUES (1) => insert t values (1);
INSERT INTO t VALUES (NULL,1) => insert t values (NULL, 1);
INSERT INTO t VALUES (9223372036854775808,1) => insert t values (too-big, 1);
INSERT INTO t (a) VALUES (1) => insert t (a) values (1);
INSERT INTO t (id,id) VALUES (1,1) => insert t (id, id) values (1, 1);
INSERT INTO v VALUES ('abc') => insert v values ('abc');
CREATE TABLE w (id BIGINT PRIMARY KEY) => create w (id bigint primary);
BEGIN => begin;
SET TRANSACTION ISOLATION LEVEL SERIALIZABLE => next serializable;
INSERT INTO t VALUES (1,5) => insert t values (1, 5);
INSERT INTO v VALUES ('ab') => insert v values ('ab')";

/// Declarations of tables, and comments, which are white space.
const TABLES_AND_COMMENTS: &str =
    "create table t (a varbinary(255) not null primary key, b bigint null) => create t (a varbinary 255 not-null primary, b bigint null);
CREATE TABLE t (a VARBINARY (256), b VARBINARY(0)) => create t (a varbinary too-big, b varbinary 0);
CREATE TABLE t (INDEX (a), INDEX i (b), KEY (c), KEY k (d)) => create t (key a, key i on b, key c, key k on d);
CREATE TABLE t (a BIGINT) ENGINE = InnoDB => create t (a bigint);
CREATE TABLE t (a BIGINT) engine INNODB => create t (a bigint);
CREATE TABLE engine (innodb BIGINT NULL PRIMARY KEY) => create engine (innodb bigint null primary);
/* a */SELECT/**/ * /* b\n */FROM/***/t/* ; */ => select * from t;
SELECT -- x\n* -- y ' \nFROM t -- => select * from t;
SELECT # x\n* # `\nFROM t # => select * from t;
SELECT * FROM t --\tWHERE a = 1 => select * from t;
/* /* */ COMMIT # */ => commit;
\t\n\r\x0b\x0c SELECT\n*\nFROM\tt\r\n => select * from t;
INSERT INTO t VALUES ('/* x */', '-- x', \"# x\") => insert t values ('/* x */', '-- x', '# x');
SELECT `# x` FROM `-- y` => select # x from -- y;
UPDATE t SET a = b --x => update t set a = (b - neg(x));
UPDATE t SET a = b -- x => update t set a = b;
UPDATE t SET a = b --x -- x => update t set a = (b - neg(x));
UPDATE t SET a = b-/* 1 */-x => update t set a = (b - neg(x))";

/// NOT binds tighter than AND, and AND than OR; then each kind of test.
const CONDITIONS: &str =
    "SELECT * FROM t WHERE a = 1 OR b = 2 AND c = 3 => select * from t where ((a = 1) or ((b = 2) and (c = 3)));
SELECT * FROM t WHERE a = 1 AND b = 2 OR c = 3 => select * from t where (((a = 1) and (b = 2)) or (c = 3));
SELECT * FROM t WHERE (a = 1 OR b = 2) AND c = 3 => select * from t where (((a = 1) or (b = 2)) and (c = 3));
SELECT * FROM t WHERE a = 1 AND (b = 2 OR c = 3) => select * from t where ((a = 1) and ((b = 2) or (c = 3)));
SELECT * FROM t WHERE NOT a = 1 AND b = 2 => select * from t where ((not (a = 1)) and (b = 2));
SELECT * FROM t WHERE NOT (a = 1 AND b = 2) => select * from t where (not ((a = 1) and (b = 2)));
SELECT * FROM t WHERE a = 1 OR NOT b = 2 OR c = 3 => select * from t where (((a = 1) or (not (b = 2))) or (c = 3));
SELECT * FROM t WHERE a = 1 AND b = 2 AND c = 3 => select * from t where (((a = 1) and (b = 2)) and (c = 3));
SELECT * FROM t WHERE NOT NOT a = 1 => select * from t where (not (not (a = 1)));
SELECT * FROM t WHERE id = 1 AND NOT a < 2 => select * from t where ((id = 1) and (not (a < 2)));
SELECT * FROM t WHERE a = 1 OR b = 2 AND NOT c = 3 OR d = 4 => select * from t where (((a = 1) or ((b = 2) and (not (c = 3)))) or (d = 4));
SELECT * FROM t WHERE ((a = 1)) => select * from t where (a = 1);
SELECT * FROM t WHERE a BETWEEN 1 AND 2 AND b = 3 => select * from t where ((a between 1 and 2) and (b = 3));
SELECT * FROM t WHERE a NOT BETWEEN -1 AND 'x' OR b IS NULL => select * from t where ((a not between -1 and 'x') or (b is null));
SELECT * FROM t WHERE NOT a BETWEEN NULL AND 2 => select * from t where (not (a between NULL and 2));
SELECT * FROM t WHERE a IN (1) => select * from t where (a in (1));
SELECT * FROM t WHERE a NOT IN (1, NULL, 'x', - 2) => select * from t where (a not in (1, NULL, 'x', -2));
SELECT * FROM t WHERE NOT a NOT IN (1) => select * from t where (not (a not in (1)));
SELECT * FROM t WHERE a IS NOT NULL AND NOT b IS NULL => select * from t where ((a is not null) and (not (b is null)));
SELECT * FROM t WHERE a <> b AND a != b => select * from t where ((a <> b) and (a <> b));
SELECT * FROM t WHERE 1 < a AND a <= 2 => select * from t where ((1 < a) and (a <= 2));
SELECT * FROM t WHERE 'x' >= a AND NULL > NULL => select * from t where (('x' >= a) and (NULL > NULL));
SELECT * FROM t WHERE a = 1or b=-2and`c`=3 => select * from t where ((a = 1) or ((b = -2) and (c = 3)));
DELETE FROM t WHERE a = 1 => delete t where (a = 1)";

/// Names, cases of letters, and literals.
const NAMES_AND_LITERALS: &str =
    "SeLeCt A, a FrOm T wHeRe Id BeTwEeN 1 aNd 2 fOr UpDaTe => select A, a from T where (Id between 1 and 2) lock X;
SELECT `select`, `From` FROM `table` WHERE `where` = `null` OR `and` IS NULL => select select, From from table where ((where = null) or (and is null));
SELECT * FROM t WHERE `between` NOT BETWEEN 1 AND 2 AND `in` IN (1) => select * from t where ((between not between 1 and 2) and (in in (1)));
INSERT INTO `values` (`key`, `primary`) VALUES (1, 2) => insert values (key, primary) values (1, 2);
CREATE TABLE `if` (`bigint` BIGINT, KEY `index` (`bigint`)) => create if (bigint bigint, key index on bigint);
UPDATE `update` SET `set` = - `not` WHERE NOT `not` = `or` => update update set set = neg(not) where (not (not = or));
SELECT `Create`, `delete`, `exists`, `for` FROM `into` WHERE `insert` = 1 => select Create, delete, exists, for from into where (insert = 1);
SELECT * FROM t WHERE `is` = 1 AND `varbinary` = `with` => select * from t where ((is = 1) and (varbinary = with));
ROLLBACK TO `lock` => rollback-to lock;
SELECT `a``b`, ```` FROM t => select a`b, ` from t;
SELECT value, mode FROM share FOR SHARE => select value, mode from share lock S;
insert value value(1) => insert value values (1);
INSERT t VALUE (1), (2) => insert t values (1), (2);
SELECT _a, $1, b2_$ FROM t LOCK IN SHARE MODE => select _a, $1, b2_$ from t lock S;
DELETE FROM lock_ WHERE nulls = 1 => delete lock_ where (nulls = 1);
INSERT INTO t VALUES ('it''s', \"it's\", 'say \"\"', \"\"\"\") => insert t values ('it's', 'it's', 'say \"\"', '\"');
INSERT INTO t VALUES (\"a\\n\", '\\\\n', '\\0\\b\\r\\t\\Z') => insert t values ('a\n', '\\n', '\0\x08\r\t\x1a');
INSERT INTO t VALUES ('\\%\\_', '\\x\\'\\\"') => insert t values ('\\%\\_', 'x'\"');
INSERT INTO t VALUES ('', \"\") => insert t values ('', '');
INSERT INTO t VALUES (null, Null, NULL) => insert t values (NULL, NULL, NULL);
INSERT INTO t VALUES (- 5, -5, -0, 007) => insert t values (-5, -5, 0, 7);
INSERT INTO t VALUES (- /* five */ 5) => insert t values (-5);
INSERT INTO t VALUES (-9223372036854775808, -9223372036854775809) => insert t values (-9223372036854775808, too-big);
INSERT INTO t VALUES (9223372036854775807, 9223372036854775808) => insert t values (9223372036854775807, too-big);
INSERT INTO t VALUES (99999999999999999999, 00000000000000000000001) => insert t values (too-big, 1);
INSERT INTO t (a, b) VALUES (1, 'it''s'), (- 5, \"a\\n\") => insert t (a, b) values (1, 'it's'), (-5, 'a\n')";

/// A minus, the order of operators, and operators of one rank, from left to right.
const EXPRESSIONS: &str = "UPDATE t SET a = - 5 => update t set a = -5;
UPDATE t SET a = --5 => update t set a = neg(-5);
UPDATE t SET a = - - 5 => update t set a = neg(-5);
UPDATE t SET a = - - - 5 => update t set a = neg(neg(-5));
UPDATE t SET a = -(5) => update t set a = neg(5);
UPDATE t SET a = --x => update t set a = neg(neg(x));
UPDATE t SET a = b -5 => update t set a = (b - 5);
UPDATE t SET a = b - -5 => update t set a = (b - -5);
UPDATE t SET a = b--5 => update t set a = (b - -5);
UPDATE t SET a = -b * 2 => update t set a = (neg(b) * 2);
UPDATE t SET a = -5 * b => update t set a = (-5 * b);
UPDATE t SET a = b + c * d - 1 => update t set a = ((b + (c * d)) - 1);
UPDATE t SET a = b - c - d => update t set a = ((b - c) - d);
UPDATE t SET a = b - (c - d) => update t set a = (b - (c - d));
UPDATE t SET a = (b + c) * d => update t set a = ((b + c) * d);
UPDATE t SET a = b * c * d => update t set a = ((b * c) * d);
UPDATE t SET a = b * -(c + 1) => update t set a = (b * neg((c + 1)));
UPDATE t SET a = ((b)) => update t set a = b;
UPDATE t SET a = 9223372036854775808 - 1 => update t set a = (too-big - 1);
UPDATE t SET a = 'x' + NULL => update t set a = ('x' + NULL);
UPDATE t SET a = 2, b = a * 3, a = NULL WHERE id = 1 => update t set a = 2, b = (a * 3), a = NULL where (id = 1)";

/// Transactions, settings, levels and autocommit.
const TRANSACTIONS: &str = "BEGIN WORK => begin;
START TRANSACTION => begin;
start transaction with consistent snapshot => begin with-snapshot;
COMMIT WORK => commit;
ROLLBACK => rollback;
ROLLBACK WORK => rollback;
ROLLBACK TO s => rollback-to s;
ROLLBACK TO SAVEPOINT s => rollback-to s;
ROLLBACK WORK TO SAVEPOINT S => rollback-to S;
ROLLBACK WORK TO work => rollback-to work;
ROLLBACK TO SAVEPOINT => rollback-to SAVEPOINT;
ROLLBACK TO SAVEPOINT savepoint => rollback-to savepoint;
SAVEPOINT s => savepoint s;
savepoint savepoint => savepoint savepoint;
SAVEPOINT `to` => savepoint to;
SET autocommit = 1 => autocommit on;
set AUTOCOMMIT=on => autocommit on;
SET autocommit = OFF => autocommit off;
SET SESSION TRANSACTION ISOLATION LEVEL READ UNCOMMITTED => session read-uncommitted;
SET SESSION TRANSACTION ISOLATION LEVEL READ COMMITTED => session read-committed;
set session transaction isolation level repeatable read => session repeatable-read;
SET SESSION TRANSACTION ISOLATION LEVEL SERIALIZABLE => session serializable;
SET TRANSACTION ISOLATION LEVEL READ COMMITTED => next read-committed;
SET TRANSACTION ISOLATION LEVEL REPEATABLE READ => next repeatable-read";

/// Whether the text before the arrow spells the tree behind it.
fn has_tree(alloc: Global, case: &str) -> Result<bool, AllocError> {
    let Some((text, expected)) = case.split_once(" => ") else {
        return Ok(false);
    };
    let tree = tree(alloc, text.as_bytes())?;
    Ok(tree.as_slice() == expected.as_bytes())
}

#[test]
fn each_text_has_its_tree(rt: HostRuntime) -> Result<(), Fail> {
    for cases in [
        SCRIPTS,
        TABLES_AND_COMMENTS,
        CONDITIONS,
        NAMES_AND_LITERALS,
        EXPRESSIONS,
        TRANSACTIONS,
    ] {
        for case in cases.split(";\n") {
            assert!(rt; has_tree(rt.alloc(), case)?, "{case}");
        }
    }
    Ok(())
}
