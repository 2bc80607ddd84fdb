//! What counts among the children of `meta`.

ghost use Rattle.std.specs.Prelude.{Ok};
ghost use Rattle.exif_types.specs.Refusals.{Answers};
ghost use Rattle.exif_isobmff.specs.Boxes.{children};
ghost use Rattle.exif_isobmff.specs.Heif.{tables_of, meta_tables};
ghost use Rattle.exif_isobmff.specs.TablesView.{tables_view, table_with};

use crate::items::exif_item;
use crate::{BoxSplitter, Kind};
use exif_types::Error;

/// The last Exif item over all `iinf` boxes, the last `iloc` and the last `idat`.
#[derive(Drop)]
pub struct Tables<'a> {
    pub item: Option<u32>,
    pub iloc: Option<BoxSplitter<'a>>,
    pub idat: Option<&'a [u8]>,
}

// The tables with one more child.
fn with_child<'a>(
    tables: Tables<'a>,
    kind: Kind,
    body: BoxSplitter<'a>,
) -> Result<Tables<'a>, Error>
    ensures { Answers tables_view result (table_with kind body.entry (tables_view tables.entry)) }
{
    let Tables { item, iloc, idat } = tables;
    match kind {
        Kind::ItemData => Ok(Tables {
            item,
            iloc,
            idat: Some(body.into_rest()),
        }),
        Kind::ItemInfo => Ok(Tables {
            item: exif_item(body, item)?,
            iloc,
            idat,
        }),
        Kind::ItemLocation => Ok(Tables {
            item,
            iloc: Some(body),
            idat,
        }),
        _ => Ok(Tables { item, iloc, idat }),
    }
}

fn child_tables(mut boxes: BoxSplitter) -> Result<Tables, Error>
    ensures { Answers tables_view result (tables_of (children boxes.entry)) }
{
    let mut tables = Tables {
        item: None,
        iloc: None,
        idat: None,
    };
    while !boxes.is_empty() {
        let (kind, body) = boxes.child_box()?;
        tables = with_child(tables, kind, body)?;
    }
    Ok(tables)
}

/// What counts among the children of `meta`, which is a full box of version 0.
#[tactic(auto, unfolding(crate::specs::Heif::meta_tables))]
pub fn meta_tables(mut body: BoxSplitter) -> Result<Tables, Error>
    ensures { Answers tables_view result (meta_tables body.entry) }
{
    if body.fullbox_version()? != 0 {
        return Err(Error::InvalidFormat("Unsupported MetaBox"));
    }
    child_tables(body)
}
