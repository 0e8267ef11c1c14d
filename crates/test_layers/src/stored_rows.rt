//! Rows put and taken away, and the digest of those that are left.

ghost use Rattle.std.specs.Prelude.{◌≡◌, IfOk};
ghost use Rattle.std.specs.FinMap as map;

use catalogue::Catalogue;
use row_store::{RowStore, all_is_free_with_nothing_lent};
use row_text::{DigestForm, digest_text, rows_digest};
use serde_json::Value as Json;
use std::alloc::Global;
use std::collections::BTreeMap;
use std::process::Abort;
use std::test::Fail;
use values::{Key, Row, RowName, TableNo, Value};

/// Tables of one, three and four partitions.
const WIDE: &str =
    r#"["catalogue",1,[["a",1,[["x","int"]]],["b",3,[["x","int"]]],["c",4,[["x","int"]]]]]"#;

/// The table, the key and the value of a row.
type Given = (usize, i64, i64);

/// The table and the key of a row name, and the value that is written there, or none.
type Write = (usize, i64, Option<i64>);

fn key(number: i64) -> Result<Key, Fail> {
    Ok(Key::new(number).ok_or("a key")?)
}

fn row(alloc: Global, value: i64) -> Result<Row, Fail> {
    Ok(Row::new(vec![in alloc; Value::Int(value)]?))
}

/// The writes that these are.
fn writes_of(alloc: Global, made: &[Write]) -> Result<BTreeMap<RowName, Option<Row>>, Fail> {
    let mut writes = BTreeMap::new(alloc);
    for (table, number, value) in made {
        let row = match value {
            Some(value) => Some(row(alloc, *value)?),
            None => None,
        };
        writes.insert(RowName::new(TableNo::new(*table), key(*number)?), row)?;
    }
    Ok(writes)
}

/// A store with these rows.
fn store_of(alloc: Global, given: &[Given]) -> Result<RowStore, Fail>
    ensures { IfOk result (λ store. store.lent ≡ map.empty) }
{
    let catalogue = Catalogue::read(alloc, &Json::from_str(alloc, WIDE)?)?;
    let mut rows = Vec::new(alloc);
    for (table, number, value) in given {
        rows.push((TableNo::new(*table), key(*number)?, row(alloc, *value)?))?;
    }
    Ok(RowStore::new(alloc, &catalogue, rows)?)
}

/// The digest of these rows, after these writes.
fn digest(alloc: Global, given: &[Given], made: &[Write]) -> Result<String, Fail> {
    let mut store = store_of(alloc, given)?;
    store.apply(writes_of(alloc, made)?)?;
    all_is_free_with_nothing_lent();
    Ok(rows_digest(alloc, store.catalogue(), &store, DigestForm::Rows)?)
}

/// Of two rows with one name the later stays. Keys that alternate between partitions come in ascending order.
#[test]
fn rows_are_put_and_taken_away(rt: HostRuntime) -> Result<(), Fail> {
    let alloc = rt.alloc();
    let table: [(&[Given], &[Write], &str); 6] = [
        (&[], &[], ""),
        (
            &[(2, 1, 2), (1, 2, 160), (1, 1, 40)],
            &[],
            "b 1 40\nb 2 160\nc 1 2\n",
        ),
        (
            &[(0, 1, 100), (1, 1, 2), (0, 1, 300)],
            &[],
            "a 1 300\nb 1 2\n",
        ),
        (&[(0, 1, 10)], &[(0, 1, None)], ""),
        (
            &[(1, 1, 10), (1, 2, 20), (1, 3, 30), (1, 4, 40), (2, 1, 11)],
            &[
                (1, 1, Some(70)),
                (1, 5, Some(50)),
                (1, 2, None),
                (2, 9, None),
            ],
            "b 1 70\nb 3 30\nb 4 40\nb 5 50\nc 1 11\n",
        ),
        (
            &[
                (1, 9, 1),
                (2, 10, 2),
                (1, 100, 3),
                (1, 0, 4),
                (2, 3, 5),
                (1, 7, 6),
                (0, 5, 7),
                (1, 8, 8),
            ],
            &[],
            "a 5 7\nb 0 4\nb 7 6\nb 8 8\nb 9 1\nb 100 3\nc 3 5\nc 10 2\n",
        ),
    ];
    for (given, made, text) in table {
        let found = digest(alloc, given, made)?;
        let want = digest_text(alloc, text.as_bytes())?;
        assert_eq!(rt; found.as_str(), want.as_str(), "{text}");
    }
    Ok(())
}

/// Rows with the keys 7,919 n modulo 20,011 for n below 10,000, and ten times the key as their values.
fn ten_thousand(alloc: Global) -> Result<Vec<Given>, Fail> {
    let mut rows = Vec::new(alloc);
    for place in 0..10_000u32 {
        let number = place * 7_919 % 20_011;
        rows.push((1, i64::from(number), i64::from(number * 10)))?;
    }
    Ok(rows)
}

#[test]
fn ten_thousand_rows_are_put_in_order(rt: HostRuntime) -> Result<(), Fail> {
    let alloc = rt.alloc();
    assert_eq!(rt;
        digest(alloc, ten_thousand(alloc)?.as_slice(), &[])?.as_str(),
        "963ba357fa50019a692cf8d59cb402f3788f8b17209a571bc0f8cf25e33d1c81"
    );
    Ok(())
}

/// All partitions are hashed on several threads at first; after a write the one that has few rows is hashed alone.
#[test]
fn partitions_of_many_rows_are_hashed_side_by_side(rt: HostRuntime) -> Result<(), Fail> {
    let alloc = rt.alloc();
    let mut store = store_of(alloc, ten_thousand(alloc)?.as_slice())?;
    store.keep_digests(&rt, 4);
    assert_eq!(rt;
        store.rows_digest(DigestForm::Partitions)?.as_str(),
        "0aa7f61affbccb6bf9c61ca2d6a6a4cf9510e3793c21d60cce94cd7c309767ef"
    );
    store.apply(writes_of(alloc, &[(1, 7_919, Some(1))])?)?;
    store.keep_digests(&rt, 4);
    assert_eq!(rt;
        store.rows_digest(DigestForm::Partitions)?.as_str(),
        "0fcb48b3746fdafea95dcf2544f08fc1d288b9f38ddf01db2a08173ae5c149d9"
    );
    Ok(())
}

/// The name of a table and the number of its partition, and the row lines of that partition.
type Part = (&'static str, &'static str);

/// The digest of the partition text in which these partitions have their lines.
fn digest_of_parts(alloc: Global, parts: &[Part]) -> Result<String, Fail> {
    let mut text = String::new(alloc);
    for (name, lines) in parts {
        let digest = digest_text(alloc, lines.as_bytes())?;
        writeln!(text, "{name} {digest}")?;
    }
    Ok(digest_text(alloc, text.as_bytes())?)
}

/// Makes writes. The store's digests are then those of these partitions, once the digests of partitions are made, and
/// again as all of them are kept.
fn write_and_digest(
    rt: &impl Abort,
    alloc: Global,
    store: &mut RowStore,
    made: &[Write],
    parts: &[Part],
) -> Result<(), Fail>
    requires { store.old.lent ≡ map.empty }
    ensures { store.new.lent ≡ map.empty }
{
    store.apply(writes_of(alloc, made)?)?;
    let want = digest_of_parts(alloc, parts)?;
    let found = store.rows_digest(DigestForm::Partitions)?;
    assert_eq!(rt; found.as_str(), want.as_str());
    let again = store.rows_digest(DigestForm::Partitions)?;
    assert_eq!(rt; again.as_str(), want.as_str());
    Ok(())
}

/// What a store keeps of its partitions shows in no digest: a row is written, one is added to a partition with rows and
/// one to a partition without, a row is taken away, and then the only one of a partition.
#[test]
fn digests_of_partitions_follow_their_rows(rt: HostRuntime) -> Result<(), Fail> {
    let alloc = rt.alloc();
    let given = [(1, 1, 10), (1, 2, 20), (1, 4, 40), (2, 1, 11)];
    let mut store = store_of(alloc, &given)?;
    let one = ("b 1", "b 1 10\nb 4 40\n");
    let two = ("b 2", "b 2 20\n");
    let three = ("c 1", "c 1 11\n");
    write_and_digest(&rt, alloc, &mut store, &[], &[one, two, three])?;
    let one = ("b 1", "b 1 10\nb 4 70\n");
    write_and_digest(
        &rt,
        alloc,
        &mut store,
        &[(1, 4, Some(70))],
        &[one, two, three],
    )?;
    let two = ("b 2", "b 2 20\nb 5 50\n");
    write_and_digest(
        &rt,
        alloc,
        &mut store,
        &[(1, 5, Some(50))],
        &[one, two, three],
    )?;
    let four = ("c 3", "c 7 5\n");
    write_and_digest(
        &rt,
        alloc,
        &mut store,
        &[(2, 7, Some(5))],
        &[one, two, three, four],
    )?;
    let one = ("b 1", "b 4 70\n");
    write_and_digest(
        &rt,
        alloc,
        &mut store,
        &[(1, 1, None)],
        &[one, two, three, four],
    )?;
    write_and_digest(&rt, alloc, &mut store, &[(2, 1, None)], &[one, two, four])?;
    Ok(())
}
