//! A session on items in three partitions, where a stale call is tried once more.

use engine::Settings;
use session::Session;
use setup::read_setup;
use std::alloc::Global;
use std::test::Fail;

/// Items, and links to them. `point` sets a link, and `hop` adds 1 to the item that a link leads to. Stale calls are
/// tried once more.
const SHOP: &str = r#"["setup",2,
["catalogue",2,[["item",3,[["left","int"]]],["link",1,[["to","int"]]]]],
["procs",1,[
["point",[["k","int"],["v","int"]],["declared",["row","w","link","k"]],[["put","link","k","to","v"]]],
["hop",[["k","int"]],["recon"],
 [["get","t","link","k","to"],["get","x","item","t","left"],["put","item","t","left",["+","x",1]],["reply","t"]]],
["add",[["k","int"],["v","int"]],["declared",["row","w","item","k"]],[["insert","item","k",["v"]]]]]],
["rows",1,[["item",9,[90]],["item",5,[50]],["item",1,[10]],["item",2,[20]],["link",1,[2]]]],1]"#;

/// A session on that setup.
pub(crate) fn session_on_shop(alloc: Global) -> Result<Session, Fail> {
    let document = read_setup(alloc, SHOP.as_bytes())?;
    let settings = Settings::new(1, 1, 64, 65_536)?;
    Ok(Session::new(alloc, document, settings)?)
}
