ghost use Rattle.std.specs.Prelude.{◌≡◌};
ghost use Rattle.pages.specs.Settings.{windowed};

use crate::descriptor::Window;
use answers::Refusal;

// A page that an entry is to name, in numbers from outside.
#[derive(Clone, Copy, PartialEq, Eq, Debug)]
pub struct Page {
    pub page: u32,
    pub start: u32,
    pub length: u32,
    pub write: bool,
}

// What a page entry is to become; none where it is to name no page.
pub type Setting = Option<Page>;

// The window, where the numbers are within its limits.
impl TryFrom<Page> for Window {
    type Error = Refusal;

    ghost try_from_gives = { λ p r. r ≡ windowed p };

    fn try_from(setting: Page) -> Result<Window, Refusal> {
        let Page {
            page,
            start,
            length,
            write,
        } = setting;
        if page < 128 && start < 4 && (1..=4).contains(&length) && start + length <= 4 {
            Ok(Window {
                page: page as u8,
                start: start as u8,
                length: length as u8,
                write,
            })
        } else {
            Err(Refusal::Descriptor)
        }
    }
}
