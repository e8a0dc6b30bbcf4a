//! Command lines that are written out: each body is empty, and the contract is the law.
ghost use Rattle.std.specs.Prelude.{◌≡◌, ◌∷◌, [], codes};
ghost use Rattle.gs_arguments.specs.Asked.{asked_by, help, connection, listening, nothing};

/// What is left out has its default, and a number may have a sign. Workers are not heeded.
pub fn lines_that_serve()
    ensures once { asked_by (codes "gsd" ∷ codes "--once" ∷ []) ≡ connection (codes "http://localhost") 256 }
    ensures all { asked_by (codes "gsd" ∷ codes "--piece" ∷ codes "+4"
        ∷ codes "--base=http://[::1]:80" ∷ codes "--once" ∷ [])
        ≡ connection (codes "http://[::1]:80") 4 }
    ensures least { asked_by (codes "gsd" ∷ codes "--once" ∷ codes "--piece=1" ∷ [])
        ≡ connection (codes "http://localhost") 1 }
    ensures most { asked_by (codes "gsd" ∷ codes "--once" ∷ codes "--piece=4096" ∷ [])
        ≡ connection (codes "http://localhost") 4096 }
    ensures workers { asked_by (codes "gsd" ∷ codes "--once" ∷ codes "--workers" ∷ codes "9" ∷ [])
        ≡ connection (codes "http://localhost") 256 }
{}

/// An address is any text. What is left out has its default.
pub fn lines_that_listen()
    ensures address { asked_by (codes "gsd" ∷ codes "--listen" ∷ codes "127.0.0.1:0" ∷ [])
        ≡ listening (codes "127.0.0.1:0") (codes "http://localhost") 4 256 }
    ensures all { asked_by (codes "gsd" ∷ codes "--workers" ∷ codes "256"
        ∷ codes "--listen=[::1]:80" ∷ codes "--piece=1"
        ∷ codes "--base" ∷ codes "http://a:80" ∷ [])
        ≡ listening (codes "[::1]:80") (codes "http://a:80") 256 1 }
    ensures least { asked_by (codes "gsd" ∷ codes "--listen" ∷ codes "x" ∷ codes "--workers=1" ∷ [])
        ≡ listening (codes "x") (codes "http://localhost") 1 256 }
{}

/// Help is asked for by either name, also beside other options.
pub fn lines_for_help()
    ensures long { asked_by (codes "gsd" ∷ codes "--help" ∷ []) ≡ help }
    ensures short { asked_by (codes "gsd" ∷ codes "-h" ∷ []) ≡ help }
    ensures beside { asked_by (codes "gsd" ∷ codes "--once" ∷ codes "--help" ∷ []) ≡ help }
{}

/// Neither `--once` nor `--listen`, or both, a number out of range, a base that is none, an option that
/// is there twice, has no value or is not known, and a word too many are faults.
pub fn lines_that_are_bad()
    ensures no_words { asked_by (codes "gsd" ∷ []) ≡ nothing }
    ensures no_name { asked_by [] ≡ nothing }
    ensures no_once { asked_by (codes "gsd" ∷ codes "--piece" ∷ codes "7" ∷ []) ≡ nothing }
    ensures twice { asked_by (codes "gsd" ∷ codes "--once" ∷ codes "--once" ∷ []) ≡ nothing }
    ensures piece_zero { asked_by (codes "gsd" ∷ codes "--once" ∷ codes "--piece" ∷ codes "0" ∷ [])
        ≡ nothing }
    ensures piece_over { asked_by (codes "gsd" ∷ codes "--once" ∷ codes "--piece" ∷ codes "4097" ∷ [])
        ≡ nothing }
    ensures piece_text { asked_by (codes "gsd" ∷ codes "--once" ∷ codes "--piece" ∷ codes "x" ∷ [])
        ≡ nothing }
    ensures base_empty { asked_by (codes "gsd" ∷ codes "--once" ∷ codes "--base" ∷ codes "http://" ∷ [])
        ≡ nothing }
    ensures base_other { asked_by (codes "gsd" ∷ codes "--once" ∷ codes "--base" ∷ codes "ftp://x" ∷ [])
        ≡ nothing }
    ensures unknown { asked_by (codes "gsd" ∷ codes "--once" ∷ codes "--other" ∷ []) ≡ nothing }
    ensures extra { asked_by (codes "gsd" ∷ codes "--once" ∷ codes "more" ∷ []) ≡ nothing }
    ensures both { asked_by (codes "gsd" ∷ codes "--listen" ∷ codes "x" ∷ codes "--once" ∷ []) ≡ nothing }
    ensures no_address { asked_by (codes "gsd" ∷ codes "--listen" ∷ []) ≡ nothing }
    ensures listen_twice { asked_by (codes "gsd" ∷ codes "--listen=x" ∷ codes "--listen=x" ∷ []) ≡ nothing }
    ensures workers_zero { asked_by (codes "gsd" ∷ codes "--listen" ∷ codes "x"
        ∷ codes "--workers" ∷ codes "0" ∷ [])
        ≡ nothing }
    ensures workers_over { asked_by (codes "gsd" ∷ codes "--listen" ∷ codes "x"
        ∷ codes "--workers" ∷ codes "257" ∷ [])
        ≡ nothing }
    ensures workers_text { asked_by (codes "gsd" ∷ codes "--listen" ∷ codes "x"
        ∷ codes "--workers" ∷ codes "x" ∷ [])
        ≡ nothing }
    ensures once_zero { asked_by (codes "gsd" ∷ codes "--once" ∷ codes "--workers" ∷ codes "0" ∷ [])
        ≡ nothing }
    ensures once_over { asked_by (codes "gsd" ∷ codes "--once" ∷ codes "--workers" ∷ codes "257" ∷ [])
        ≡ nothing }
    ensures once_text { asked_by (codes "gsd" ∷ codes "--once" ∷ codes "--workers" ∷ codes "x" ∷ [])
        ≡ nothing }
    ensures listen_base { asked_by (codes "gsd" ∷ codes "--listen" ∷ codes "x" ∷ codes "--base"
        ∷ codes "ftp://x" ∷ [])
        ≡ nothing }
{}
