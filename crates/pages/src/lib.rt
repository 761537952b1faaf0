// What `catalog` prints for an image, a page at a time: the listing of a sound volume, or why there is none.
#![tactic(auto)]

ghost use Rattle.std.specs.Prelude.{◌≡◌, length};
ghost use Rattle.model.specs.Bytes.{view};
ghost use Rattle.model.specs.Catalog.{catalog};
ghost use Rattle.ink.specs.Ink.{Shows};

const MOST: usize = 65536;

// The bytes of the text from an offset on, as many as the page takes.
pub fn catalog_page(img: &[u8], offset: usize, page: &mut [u8]) -> usize
    ensures { Shows (catalog (length img.now) (view img.now)) offset page.old result page.new }
{
    if MOST < img.len() {
        return listing::page_of_too_large(offset, page);
    }
    match opening::volume_in(img) {
        Err(why) => {
            let number = u8::from(why);
            listing::page_of_refusal(number, offset, page)
        }
        Ok(n) => listing::page_of_volume(img, n, offset, page),
    }
}
