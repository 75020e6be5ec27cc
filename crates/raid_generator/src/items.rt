ghost use Rattle.std.specs.Prelude.{◌≡◌, ◌<◌, ◌∷◌, [], IfOk};
ghost use Rattle.raid_generator.specs.Made.{digit, name_of, holders_of, item_line, item_lines};

use raid_base::{Listed, NoMemory, Site, Sites};
use raid_workload::{ItemLine, Items, Name};
use std::alloc::Global;

/// The digit of a number that has this weight.
fn digit(weight: u16, k: u16) -> u8
    requires { 0 < weight }
    ensures { result ≡ digit weight k }
{
    b'0' + (k / weight % 10) as u8
}

/// The letter i and four digits.
fn name(alloc: Global, k: u16) -> Result<Name, NoMemory>
    ensures { IfOk result (λ name. name ≡ name_of k) }
{
    let bytes = [
        b'i',
        digit(1000, k),
        digit(100, k),
        digit(10, k),
        digit(1, k),
    ];
    Name::new(alloc, &bytes)
}

/// Two of the four sites in turn.
fn holders(k: u16) -> Sites
    requires { k < 1024 }
    ensures { result ≡ holders_of k }
{
    let first = Site(1 + (k % 4) as u8);
    let second = Site(1 + ((k + 1) % 4) as u8);
    Sites::none().with(first).with(second)
}

/// The item with this number.
fn item(alloc: Global, k: u16) -> Result<ItemLine, NoMemory>
    requires { k < 1024 }
    ensures { IfOk result (λ line. line ≡ item_line k) }
{
    let name = name(alloc, k)?;
    Ok(ItemLine {
        name,
        value: 1000,
        holders: holders(k),
    })
}

/// All items.
pub fn items(alloc: Global) -> Result<Items, NoMemory>
    ensures { IfOk result (λ lines. lines ≡ item_lines) }
{
    let mut lines = Listed::new(alloc);
    for k in 0..1024u16 {
        lines.push(item(alloc, k)?)?;
    }
    Ok(lines)
}
