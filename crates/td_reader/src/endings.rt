// What a trace tells of the texts at the end.
ghost use Rattle.std.specs.Prelude.{◌≡◌, ◌≤◌, ◌<◌, ◌-◌, ◌+◌, ◌^◌, ℕ, MatchOption, None, Some, slice_get};
ghost use Rattle.td_reader.specs.LineNumbers.{history_lines, line_of_text, log_lines};

use crate::places::ReadTrace;
use crate::quoted::Quoted;
use td_base::Site;

impl<'a> ReadTrace<'a> {
    /// The text of the site at the end. None where there is no such site. Takes no memory.
    pub fn text(&self, site: Site) -> Option<Quoted<'a>>
        ensures { let found = slice_get self.now.texts (site - 1) in
            MatchOption result (found ≡ None) (λ text. found ≡ Some text) }
    {
        if site.number() > self.sites() {
            return None;
        }
        let begin = self.texts_begin();
        self.line(begin as usize + site.place())?.into_text()
    }

    /// The number of the line, from 1, of the text of the site. Takes no memory.
    pub fn line_of_text(&self, site: Site) -> u32
        requires { site ≤ self.now.sites }
        ensures { result ≡ line_of_text self.now site }
    {
        self.texts_begin() + u32::from(site.number())
    }

    // The line, from 0, at which the texts begin.
    fn texts_begin(&self) -> u32
        ensures begin { result ≡ 1 + history_lines self.now.histories + log_lines self.now.logs }
        ensures few { (site : ℕ) → site ≤ self.now.sites → result + site < 2 ^ 32 }
    {
        self.begin(self.parts()).unwrap()
    }
}
