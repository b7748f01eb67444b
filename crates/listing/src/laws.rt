// Laws of listings. What a function here does doesn't matter: its contract is the law.

ghost use Rattle.rv_machine.specs.Image.{IsImage};
ghost use Rattle.listing.specs.CodeLines.{code_listing, code_words};
ghost use Rattle.listing.specs.Readings.{IsListing};

use assembler::image::Image;

/// The listing of an image's code is a code listing, and the words that it lists are those of the code.
pub fn code_listings_read_back(image: &Image)
    ensures { IsListing (code_listing image.now) (code_words image.now) }
{
    listings_of_bytes(image.bytes());
}

// The same of the bytes of an image.
fn listings_of_bytes(bytes: &[u8])
    requires { IsImage bytes.now }
    ensures { IsListing (code_listing bytes.now) (code_words bytes.now) }
{
    bytes.len();
}
