//! Laws that follow from the definitions of sessions and of their bytes.
ghost use Rattle.std.specs.Prelude.{◌≡◌, ℕ, List, [], ◌∷◌, length, take, drop};
ghost use Rattle.s2edit.specs.Content.{Content};
ghost use Rattle.s2session.specs.Laws.{LawOfSessions};
ghost use Rattle.s2session.specs.Session.{Spells, session_text, content_of_list, one_change};

/// Bytes spell at most one session.
pub fn one_session()
    ensures { (bytes : List ℕ) (s t : Content) → Spells bytes s → Spells bytes t → s ≡ t }
{}

/// The files of an untouched editor, of 226 bytes, and of one after `1` went into register a, of 259.
pub fn known_sessions()
    ensures untouched { length (session_text (content_of_list [])) ≡ 226 }
    ensures one_change { length (session_text one_change) ≡ 259 }
    ensures one_change_begins { take 26 (session_text one_change) ≡ 0x73 ∷ 1 ∷ 1 ∷ 0 ∷ 0 ∷ 0 ∷ 0 ∷ 0 ∷ 0 ∷ 0 ∷ 0
        ∷ 0 ∷ 0 ∷ 0 ∷ 0 ∷ 0 ∷ 0 ∷ 0x10 ∷ 0 ∷ 0 ∷ 0 ∷ 0 ∷ 0 ∷ 0 ∷ 0 ∷ 0 ∷ [] }
    ensures one_change_ends { drop 218 (session_text one_change) ≡ 1 ∷ 0 ∷ 0 ∷ 0 ∷ 0 ∷ 0 ∷ 0 ∷ 0 ∷ 0 ∷ 0 ∷ 0 ∷ 0
        ∷ 0 ∷ 0 ∷ 0 ∷ 0 ∷ 0 ∷ 1 ∷ 0 ∷ 0 ∷ 0 ∷ 0 ∷ 0 ∷ 0
        ∷ 0 ∷ 0 ∷ 0 ∷ 0 ∷ 0 ∷ 0 ∷ 0 ∷ 0 ∷ 0x10 ∷ 0 ∷ 0 ∷ 0 ∷ 0 ∷ 0
        ∷ 0 ∷ 0 ∷ 0 ∷ [] }
{}

/// The laws of sessions: bytes stand for at most one history, and a history that is written comes back.
pub fn law_of_sessions()
    ensures { LawOfSessions }
{}
