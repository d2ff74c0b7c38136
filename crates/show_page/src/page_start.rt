//! The start of a page.

/// The start of all pages, up to their style.
pub(crate) const START: &[u8] = b"<!DOCTYPE html>
<html lang='en'>
<head>
<meta charset='utf-8'>
<meta name='viewport' content='width=device-width,initial-scale=1'>
<meta name='generator' content='sfbank'>
<title>SoundFont bank</title>
<style>
";
